ghost use Rattle.std.specs.Prelude.{◌≡◌, ◌↔◌, ◌<◌, ℕ, [], IsTrue, not, false, slice_index_or};
ghost use Rattle.template_core.specs.Constraints.{IsWellMadeFor};
ghost use Rattle.template_core.specs.Tables.{IsTable, step};
ghost use Rattle.template_core.specs.declared.class.Class.TheVariants.{Other};
ghost use Rattle.live_monitor.specs.Standing.{IsStanding};
ghost use Rattle.live_monitor.specs.Watching.{IsWatched, TableAcceptsFrom, standing_by};

use crate::Standing;
use crate::leading::leading_to;
use template_core::{Class, Constraint, Table};
use template_set::table_of;

/// A constraint with its automaton, and the standing of a trace that leads to each state of it.
#[derive(Clone, Copy, Drop)]
pub(crate) struct Watched {
    pub constraint: Constraint,
    pub table: Table,
    /// Whether an event of no activity of the constraint changes no state.
    pub stays: bool,
    pub standings: [Standing; 12],
}

impl Watched {
    /// The constraint, over so many symbols.
    pub(crate) fn of(constraint: &Constraint, symbols: u32) -> Watched
        requires { IsWellMadeFor symbols constraint.now }
        ensures watched { IsWatched symbols result }
        ensures constraint { result.constraint ≡ constraint.now }
    {
        let table = table_of(constraint.kind);
        let standings = standings_of(&table, constraint, symbols);
        Watched {
            constraint: *constraint,
            table,
            stays: stays(&table),
            standings,
        }
    }
}

/// Whether an event of no activity of the constraint leads from each state back to it.
fn stays(table: &Table) -> bool
    requires { IsTable table.now }
    ensures { IsTrue result ↔ ((state : ℕ) → state < table.now.states → step table.now state Other ≡ state) }
{
    for state in 0..table.states {
        if table.step(state, Class::Other) != state {
            return false;
        }
    }
    true
}

/// The standings of traces that lead to the states of a table.
fn standings_of(table: &Table, constraint: &Constraint, symbols: u32) -> [Standing; 12]
    requires table { IsTable table.now }
    requires made { IsWellMadeFor symbols constraint.now }
    ensures { (state : ℕ) → state < table.now.states
        → IsStanding symbols (TableAcceptsFrom table.now constraint.now state) [] (slice_index_or result state Standing.Kept) }
{
    let may_keep = leading_to(table, constraint, symbols, table.accepting);
    let may_break = leading_to(table, constraint, symbols, rejecting(table));
    let mut standings = [Standing::Kept; 12];
    for state in 0..12 {
        standings[state] = standing(table.accepting[state], may_keep[state], may_break[state]);
    }
    standings
}

/// The states that don't accept.
fn rejecting(table: &Table) -> [bool; 12]
    ensures { (state : ℕ) → state < 12 → slice_index_or result state false ≡ not (slice_index_or table.now.accepting state false) }
{
    let mut rejecting = [false; 12];
    for state in 0..12 {
        rejecting[state] = !table.accepting[state];
    }
    rejecting
}

/// The standing of a trace: whether it keeps, and whether some trace that begins with it keeps, and some doesn't.
fn standing(keeps: bool, may_keep: bool, may_break: bool) -> Standing
    ensures { result ≡ standing_by keeps may_keep may_break }
{
    if !may_break {
        Standing::Kept
    } else if !may_keep {
        Standing::Broken
    } else if keeps {
        Standing::KeptNow
    } else {
        Standing::BrokenNow
    }
}
