ghost use Rattle.std.specs.Prelude.{◌≡◌, ◌≤◌, length, All, IfOk, IfErr};
ghost use Rattle.decl_base.specs.Limits.{greatest_state_limit, standard};
ghost use Rattle.template_core.specs.Constraints.{IsWellMadeFor};
ghost use Rattle.model_compare.specs.Comparison.{IsCompared, RefusesComparing, relation_of};

use crate::narrow::narrow_automaton;
use crate::{Compared, Relation};
use decl_base::{Refusal, Trace};
use dfa_product::first_outside;
use std::alloc::Global;
use template_core::Constraint;

/// Compares two lists of constraints by the traces over so many symbols that keep them. Refused where a list, as it is built constraint by
/// constraint, tells more traces apart than `states`: the phase is 5 for the first list and 6 for the second.
pub fn compare(
    alloc: Global,
    first: &[Constraint],
    second: &[Constraint],
    symbols: u32,
    states: u64,
) -> Result<Compared, Refusal>
    requires first_made { All (IsWellMadeFor symbols) first.now }
    requires second_made { All (IsWellMadeFor symbols) second.now }
    requires first_short { length first.now ≤ standard.candidates }
    requires second_short { length second.now ≤ standard.candidates }
    requires some_states { 1 ≤ states }
    requires few_states { states ≤ greatest_state_limit }
    ensures ok { IfOk result (IsCompared symbols states first.now second.now) }
    ensures err { IfErr result (RefusesComparing symbols states first.now second.now) }
{
    let keeps_first = narrow_automaton(alloc, first, symbols, states, 5)?;
    let keeps_second = narrow_automaton(alloc, second, symbols, states, 6)?;
    let only_first = first_outside(alloc, &keeps_first, &keeps_second)?;
    let only_second = first_outside(alloc, &keeps_second, &keeps_first)?;
    Ok(Compared {
        relation: relation_of(&only_first, &only_second),
        only_first,
        only_second,
    })
}

/// The relation of two lists, of which each has a trace that keeps it alone or none.
fn relation_of(only_first: &Option<Trace>, only_second: &Option<Trace>) -> Relation
    ensures { result ≡ relation_of only_first.now only_second.now }
{
    match (only_first, only_second) {
        (None, None) => Relation::Equal,
        (None, Some(_)) => Relation::Stronger,
        (Some(_), None) => Relation::Weaker,
        (Some(_), Some(_)) => Relation::Neither,
    }
}
