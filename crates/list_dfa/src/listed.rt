ghost use Rattle.std.specs.Prelude.{◌≡◌, ◌≤◌, length, All, IfOk, IfErr};
ghost use Rattle.decl_base.specs.Limits.{greatest_state_limit, standard};
ghost use Rattle.template_core.specs.Constraints.{IsWellMadeFor};
ghost use Rattle.list_dfa.specs.Lists.{IsListed};

use crate::growing::{Grown, grow, or_start};
use decl_base::Refusal;
use dfa_core::Dfa;
use dfa_minimise::least;
use std::alloc::Global;
use template_core::Constraint;

/// What comes of a list of constraints that is built one by one.
#[derive(Drop)]
pub enum Listed {
    /// The least automaton of the traces that keep the list.
    Narrow(Dfa),
    /// The prefix of this length tells too many traces apart, and no shorter one does.
    Wide(u32),
}

/// The least automaton of the traces over so many symbols that keep a list, where neither the list nor a prefix of it tells more traces apart
/// than `states`.
pub fn automaton_of(
    alloc: Global,
    list: &[Constraint],
    symbols: u32,
    states: u64,
) -> Result<Listed, Refusal>
    requires made { All (IsWellMadeFor symbols) list.now }
    requires short { length list.now ≤ standard.candidates }
    requires some_states { 1 ≤ states }
    requires few_states { states ≤ greatest_state_limit }
    ensures ok { IfOk result (IsListed symbols states list.now) }
    ensures err { IfErr result (λ e. e ≡ Refusal.Memory) }
{
    let start = Dfa::everything(alloc, symbols)?;
    match grow(alloc, &start, list, symbols, states)? {
        Grown::All(grown) => {
            let least = least(alloc, or_start(&grown, &start))?;
            Ok(Listed::Narrow(least))
        }
        Grown::Wide(size) => Ok(Listed::Wide(size)),
    }
}
