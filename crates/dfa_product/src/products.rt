ghost use Rattle.std.specs.Prelude.{◌≡◌, ◌<◌, ◌≤◌, ◌+◌, ◌*◌, ◌^◌, IfOk, IfErr};
ghost use Rattle.dfa_core.specs.Automaton.{IsBreadthFirst, state_count};
ghost use Rattle.template_core.specs.Tables.{IsTable};
ghost use Rattle.dfa_product.specs.Pairs.{HasPairsOfColumns, IsIntersection, IsMeet, activities};

use crate::pairs::{Pairs, TableSteps};
use decl_base::Refusal;
use dfa_core::{Dfa, reachable};
use std::alloc::Global;
use template_core::{Constraint, Table};

/// The automaton of the traces that `dfa` accepts and that keep the constraint. It has at most one column more for each activity of the constraint.
pub fn meet(
    alloc: Global,
    dfa: &Dfa,
    table: &Table,
    constraint: &Constraint,
) -> Result<Dfa, Refusal>
    requires table { IsTable table.now }
    requires fits { state_count dfa.now * table.now.states < 2 ^ 32 }
    ensures language { IfOk result (IsMeet dfa.now table.now constraint.now) }
    ensures reached { IfOk result IsBreadthFirst }
    ensures columns { IfOk result (λ r. r.width ≤ dfa.now.width + activities constraint.now) }
    ensures err { IfErr result (λ e. e ≡ Refusal.Memory) }
{
    let second = TableSteps {
        symbols: dfa.symbols(),
        table,
        constraint,
        keeps: true,
    };
    let pairs = Pairs {
        first: dfa,
        second: &second,
        width: table.states as u32,
    };
    let product = reachable(alloc, &pairs)?;
    Ok(product)
}

/// The automaton of the traces that both automata accept. It has at most as many states as there are pairs of theirs, and as many columns as there are
/// pairs of their columns that some symbol has.
pub fn intersection(alloc: Global, first: &Dfa, second: &Dfa) -> Result<Dfa, Refusal>
    requires same_symbols { second.now.symbols ≡ first.now.symbols }
    requires fits { state_count first.now * state_count second.now < 2 ^ 32 }
    ensures language { IfOk result (IsIntersection first.now second.now) }
    ensures reached { IfOk result IsBreadthFirst }
    ensures columns { IfOk result (HasPairsOfColumns first.now second.now) }
    ensures err { IfErr result (λ e. e ≡ Refusal.Memory) }
{
    let pairs = Pairs {
        first,
        second,
        width: second.states(),
    };
    let product = reachable(alloc, &pairs)?;
    Ok(product)
}
