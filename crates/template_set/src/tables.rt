ghost use Rattle.std.specs.Prelude.{◌≡◌, ◌≤◌, true};
ghost use Rattle.std.specs.List.{range_with_len};
ghost use Rattle.template_core.specs.Constraints.{IsTemplate};
ghost use Rattle.template_core.specs.Tables.{IsTable};
ghost use Rattle.template_set.specs.Least.{is_least, told};
ghost use Rattle.template_set.specs.Tables.{IsTableBy, Accepts, IsLeastTable, most_states};

use crate::dispatch::with_template;
use template_core::{Class, Kind, Table, Template};

/// The template's automaton. Its states are numbered breadth first from its start, 0, over First, Second and Other.
/// No event is the second of a template of one activity: that column repeats Other.
#[tactic(auto, unfolding(template_core::specs::Events::all_places, crate::specs::Tables::first_seen))]
pub fn table_of(kind: Kind) -> Table
    requires { IsTemplate kind }
    ensures table { IsTable result }
    ensures accepts { Accepts kind result }
    ensures least { IsLeastTable kind result }
    ensures few { result.states ≤ most_states kind }
{
    with_template!(kind, table_by(kind))
}

/// The kind is the template's, whose automaton is the least one.
fn table_by<T: Template>(kind: Kind) -> Table
    requires used { IsTemplate T.KIND }
    requires is { kind ≡ T.KIND }
    requires few { T.meaning.states ≤ most_states T.KIND }
    requires least { is_least T.KIND T.meaning.next T.meaning.accepts T.meaning.states ≡ true }
    requires order { told T.KIND T.meaning.next T.meaning.accepts T.meaning.states ≡ range_with_len 0 T.meaning.states }
    ensures table { IsTable result }
    ensures accepts { Accepts kind result }
    ensures least { IsLeastTable kind result }
    ensures few { result.states ≤ most_states kind }
    ensures by { IsTableBy T.meaning result }
{
    let mut next = [[0; 3]; 12];
    let mut accepting = [false; 12];
    for state in 0..T::states() {
        next[state as usize] = [
            T::step(state, Class::First),
            T::step(state, Class::Second),
            T::step(state, Class::Other),
        ];
        accepting[state as usize] = T::accepting(state);
    }
    Table {
        states: T::states(),
        start: T::start(),
        next,
        accepting,
    }
}
