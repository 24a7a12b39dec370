ghost use Rattle.std.specs.Prelude.{◌≤◌, length, All, IfOk, IfErr};
ghost use Rattle.decl_base.specs.Limits.{greatest_state_limit, standard};
ghost use Rattle.template_core.specs.Constraints.{IsWellMadeFor};
ghost use Rattle.model_compare.specs.Narrow.{IsNarrowAutomaton, RefusesList};

use decl_base::Refusal;
use dfa_core::Dfa;
use list_dfa::{Listed, automaton_of};
use std::alloc::Global;
use template_core::Constraint;

/// The least automaton of the traces that keep a list. Refused, with the phase, where the list or a prefix of it tells more traces apart than
/// `states`.
pub(crate) fn narrow_automaton(
    alloc: Global,
    list: &[Constraint],
    symbols: u32,
    states: u64,
    phase: u8,
) -> Result<Dfa, Refusal>
    requires made { All (IsWellMadeFor symbols) list.now }
    requires short { length list.now ≤ standard.candidates }
    requires some_states { 1 ≤ states }
    requires few_states { states ≤ greatest_state_limit }
    ensures ok { IfOk result (IsNarrowAutomaton symbols states list.now) }
    ensures err { IfErr result (RefusesList symbols states phase list.now) }
{
    match automaton_of(alloc, list, symbols, states)? {
        Listed::Narrow(dfa) => Ok(dfa),
        Listed::Wide(built) => Err(Refusal::States { phase, built }),
    }
}
