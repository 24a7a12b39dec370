ghost use Rattle.std.specs.Prelude.{◌≤◌, length, All, IfOk, IfErr};
ghost use Rattle.decl_base.specs.Limits.{greatest_state_limit, standard};
ghost use Rattle.template_core.specs.Constraints.{IsWellMadeFor};
ghost use Rattle.model_compare.specs.Analysis.{IsAnalysis, RefusesAnalysis};

use crate::Analysed;
use crate::dead::dead_symbols;
use crate::narrow::narrow_automaton;
use crate::redundant::redundant_numbers;
use crate::traces::first_traces;
use decl_base::Refusal;
use dfa_product::{Want, first_trace};
use std::alloc::Global;
use template_core::Constraint;

/// Tells of a list of constraints over so many symbols, of which the last is a name that no constraint names: the least trace that keeps it, the
/// symbols but the last that stand in no trace that keeps it, the constraints that all others imply, and the first `first` traces that keep it.
/// Refused where a list, as it is built constraint by constraint, tells more traces apart than `states`: the phase is 5 for the list itself, and 7
/// for a list without one of its constraints, which are left out in their order.
pub fn analyse(
    alloc: Global,
    list: &[Constraint],
    symbols: u32,
    states: u64,
    first: u32,
) -> Result<Analysed, Refusal>
    requires made { All (IsWellMadeFor symbols) list.now }
    requires short { length list.now ≤ standard.candidates }
    requires some_symbols { 1 ≤ symbols }
    requires some_states { 1 ≤ states }
    requires few_states { states ≤ greatest_state_limit }
    ensures ok { IfOk result (IsAnalysis symbols states first list.now) }
    ensures err { IfErr result (RefusesAnalysis symbols states list.now) }
{
    let dfa = narrow_automaton(alloc, list, symbols, states, 5)?;
    let redundant = redundant_numbers(alloc, list, symbols, states)?;
    Ok(Analysed {
        accepts: first_trace(alloc, &dfa, &Want::Accepted)?,
        dead: dead_symbols(alloc, &dfa)?,
        redundant,
        traces: first_traces(alloc, &dfa, first)?,
    })
}
