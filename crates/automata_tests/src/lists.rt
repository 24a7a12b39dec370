ghost use Rattle.std.specs.Prelude.{◌≤◌};
ghost use Rattle.decl_base.specs.Limits.{greatest_state_limit};

use decl_base::Refusal;
use list_dfa::{Listed, automaton_of};
use std::alloc::Global;
use std::test::Fail;
use template_core::{Constraint, Kind};

// The activity 0 takes part, and the activity 1 at most once: two states tell of the first, and two of the second where it isn't broken.
fn listed(alloc: Global, states: u64) -> Result<Listed, Refusal>
    requires some { 1 ≤ states }
    requires few { states ≤ greatest_state_limit }
{
    let takes_part = Constraint {
        kind: Kind::Participation,
        first: 0,
        second: 0,
    };
    let once_at_most = Constraint {
        kind: Kind::AtMostOne,
        first: 1,
        second: 1,
    };
    automaton_of(alloc, &[takes_part, once_at_most], 2, states)
}

#[test]
fn first_wide_prefix_is_found(rt: HostRuntime) -> Result<(), Fail> {
    assert!(rt; matches!(listed(rt.alloc(), 1)?, Listed::Wide(1)));
    assert!(rt; matches!(listed(rt.alloc(), 2)?, Listed::Wide(2)));
    assert!(rt; matches!(listed(rt.alloc(), 4)?, Listed::Wide(2)));
    match listed(rt.alloc(), 5)? {
        Listed::Narrow(dfa) => assert_eq!(rt; dfa.states(), 5),
        Listed::Wide(_) => assert!(rt; false),
    }
    Ok(())
}
