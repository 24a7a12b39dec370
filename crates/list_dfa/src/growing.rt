ghost use Rattle.std.specs.Prelude.{◌≡◌, ◌≤◌, length, All, IfOk, IfErr};
ghost use Rattle.decl_base.specs.Limits.{greatest_state_limit, standard};
ghost use Rattle.dfa_core.specs.Automaton.{state_count};
ghost use Rattle.template_core.specs.Constraints.{IsWellMadeFor};
ghost use Rattle.list_dfa.specs.Growing.{grown_from, IsGrown};

use crate::extending::extended;
use decl_base::Refusal;
use dfa_core::Dfa;
use std::alloc::Global;
use template_core::Constraint;

/// What comes of an automaton when a list of constraints joins it, one after the other.
#[derive(Drop)]
pub enum Grown {
    /// The automaton with all of them, or None where there are none.
    All(Option<Dfa>),
    /// With so many of them it tells too many traces apart.
    Wide(u32),
}

/// What has grown, or what was at the start where nothing has.
pub fn or_start<'a, T>(grown: &'a Option<T>, start: &'a T) -> &'a T
    ensures { result.now ≡ grown_from start.now grown.now }
{
    match grown {
        Some(grown) => grown,
        None => start,
    }
}

/// Joins an automaton with a list of constraints, as far as the traces that it then accepts tell no more than `states` apart.
pub fn grow(
    alloc: Global,
    start: &Dfa,
    list: &[Constraint],
    symbols: u32,
    states: u64,
) -> Result<Grown, Refusal>
    requires made { All (IsWellMadeFor symbols) list.now }
    requires few { state_count start.now ≤ greatest_state_limit }
    requires short { length list.now ≤ standard.candidates }
    requires few_states { states ≤ greatest_state_limit }
    ensures ok { IfOk result (IsGrown states start.now list.now) }
    ensures err { IfErr result (λ e. e ≡ Refusal.Memory) }
{
    let mut last = start.states();
    let mut grown = None;
    let mut count = 0;
    for constraint in list {
        count += 1;
        match extended(
            alloc,
            or_start(&grown, start),
            constraint,
            states,
            &mut last,
        )? {
            Some(more) => grown = Some(more),
            None => return Ok(Grown::Wide(count)),
        }
    }
    Ok(Grown::All(grown))
}
