ghost use Rattle.std.specs.Prelude.{◌≡◌, ◌+◌, ◌≤◌, length, All, IfOk, IfErr};
ghost use Rattle.decl_base.specs.Limits.{greatest_state_limit, standard};
ghost use Rattle.dfa_core.specs.Automaton.{state_count};
ghost use Rattle.template_core.specs.Constraints.{IsWellMadeFor};
ghost use Rattle.reduce_model.specs.Passes.{IsSoughtFrom};

use crate::prefixes::Prefix;
use decl_base::{Refusal, Trace};
use list_dfa::{Grown, first_broken, grow, or_start};
use std::alloc::Global;
use template_core::Constraint;

/// Whether a list implies a constraint.
#[derive(Drop)]
pub(crate) enum Sought {
    /// It doesn't: the least trace that keeps the list and breaks the constraint.
    Found(Trace),
    /// It does.
    Missing,
    /// So many constraints tell too many traces apart.
    TooWide(u32),
}

/// Looks for the least trace that keeps a prefix and a list and breaks a constraint.
pub(crate) fn seek(
    alloc: Global,
    start: &Prefix,
    list: &[Constraint],
    constraint: &Constraint,
    symbols: u32,
    states: u64,
) -> Result<Sought, Refusal>
    requires made { All (IsWellMadeFor symbols) list.now }
    requires candidate { IsWellMadeFor symbols constraint.now }
    requires few { state_count start.now.dfa ≤ greatest_state_limit }
    requires short { start.now.length + length list.now ≤ standard.candidates }
    requires few_states { states ≤ greatest_state_limit }
    ensures ok { IfOk result (IsSoughtFrom states start.now.dfa start.now.length list.now constraint.now) }
    ensures err { IfErr result (λ e. e ≡ Refusal.Memory) }
{
    match grow(alloc, &start.dfa, list, symbols, states)? {
        Grown::All(grown) => {
            match first_broken(alloc, or_start(&grown, &start.dfa), constraint)? {
                Some(trace) => Ok(Sought::Found(trace)),
                None => Ok(Sought::Missing),
            }
        }
        Grown::Wide(count) => Ok(Sought::TooWide(start.length + count)),
    }
}
