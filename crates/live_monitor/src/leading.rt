ghost use Rattle.std.specs.Prelude.{◌≡◌, ◌≢◌, ◌<◌, ◌⊎◌, ℕ, List, Bool, true, false, IfSome, IfNone, slice_index_or};
ghost use Rattle.dfa_core.specs.Traces.{IsTrace};
ghost use Rattle.template_core.specs.Constraints.{IsWellMadeFor};
ghost use Rattle.template_core.specs.Tables.{IsTable, class, step, table_run};
ghost use Rattle.live_monitor.specs.Watching.{AreOfEachClass, LeadsToMarked, leads_on};

use template_core::{Constraint, Table, class_of};

/// At each state of the table, whether some trace over so many symbols leads from it to a marked state.
pub(crate) fn leading_to(
    table: &Table,
    constraint: &Constraint,
    symbols: u32,
    marked: [bool; 12],
) -> [bool; 12]
    requires table { IsTable table.now }
    requires made { IsWellMadeFor symbols constraint.now }
    ensures sound { (state : ℕ) → state < table.now.states → slice_index_or result state false ≡ true
        → LeadsToMarked symbols table.now constraint.now marked state }
    ensures complete { (state : ℕ) (w : List ℕ) → state < table.now.states → IsTrace symbols w
        → slice_index_or marked (table_run table.now constraint.now state w) false ≡ true → slice_index_or result state false ≡ true }
{
    let events = one_of_each_class(constraint, symbols);
    let mut leading = marked;
    while let Some(state) = next_leading(table, constraint, &events, &leading) {
        leading[state as usize] = true;
    }
    leading
}

/// The least state that leads to a marked one by one event, and isn't marked itself.
fn next_leading(
    table: &Table,
    constraint: &Constraint,
    events: &[u32; 3],
    marked: &[bool; 12],
) -> Option<u8>
    requires { IsTable table.now }
    ensures bound { IfSome result (λ state. state < table.now.states) }
    ensures unmarked { IfSome result (λ state. slice_index_or marked.now state false ≡ false) }
    ensures leads { IfSome result (λ state. leads_on table.now constraint.now events.now marked.now state ≡ true) }
    ensures none { IfNone result ((state : ℕ) → state < table.now.states → leads_on table.now constraint.now events.now marked.now state ≡ true
        → slice_index_or marked.now state false ≡ true) }
{
    for state in 0..table.states {
        if !marked[state as usize] && leads_on(table, constraint, events, marked, state) {
            return Some(state);
        }
    }
    None
}

/// Whether one of the events leads from the state to a marked one.
fn leads_on(
    table: &Table,
    constraint: &Constraint,
    events: &[u32; 3],
    marked: &[bool; 12],
    state: u8,
) -> bool
    requires table { IsTable table.now }
    requires state { state < table.now.states }
    ensures { result ≡ leads_on table.now constraint.now events.now marked.now state }
{
    let first = table.step(state, class_of(constraint, events[0]));
    let second = table.step(state, class_of(constraint, events[1]));
    let other = table.step(state, class_of(constraint, events[2]));
    marked[first as usize] || marked[second as usize] || marked[other as usize]
}

/// Of each class that an event may have, one event.
fn one_of_each_class(constraint: &Constraint, symbols: u32) -> [u32; 3]
    requires { IsWellMadeFor symbols constraint.now }
    ensures { AreOfEachClass symbols constraint.now result }
{
    let other = least_other(constraint.first, constraint.second);
    let third = if other < symbols {
        other
    } else {
        constraint.first
    };
    [constraint.first, constraint.second, third]
}

/// The least number that is neither.
fn least_other(first: u32, second: u32) -> u32
    ensures not_first { result ≢ first }
    ensures not_second { result ≢ second }
    ensures least { (x : ℕ) → x < result → (x ≡ first) ⊎ (x ≡ second) }
{
    if first != 0 && second != 0 {
        0
    } else if first != 1 && second != 1 {
        1
    } else {
        2
    }
}
