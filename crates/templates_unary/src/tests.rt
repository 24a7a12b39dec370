ghost use Rattle.std.specs.Prelude.{◌≡◌};

use crate::{AtLeast, AtMost, AtMostOne, End, Exactly, Init, Participation};
use template_core::{Constraint, Kind, keeps};

/// The constraint of the template over a.
fn over_a(kind: Kind) -> Constraint
    ensures { result ≡ record { kind = kind; first = 0; second = 0 } }
{
    Constraint {
        kind,
        first: 0,
        second: 0,
    }
}

/// Traces of a = 0 and b = 1.
#[test]
fn traces_are_kept(rt: HostRuntime) {
    let traces: [(&[u32], [bool; 4]); 4] = [
        (&[], [false, false, false, true]),
        (&[0], [true, true, true, true]),
        (&[0, 0, 1], [true, false, true, false]),
        (&[1, 0], [false, true, true, true]),
    ];
    for (trace, kept) in traces {
        let found = [
            keeps::<Init>(&over_a(Kind::Init), trace),
            keeps::<End>(&over_a(Kind::End), trace),
            keeps::<Participation>(&over_a(Kind::Participation), trace),
            keeps::<AtMostOne>(&over_a(Kind::AtMostOne), trace),
        ];
        assert_eq!(rt; found, kept, "{trace:?}");
    }
}

/// One less, as many, and one more: of two, and of nine.
#[test]
fn events_are_counted(rt: HostRuntime) {
    let traces: [(&[u32], [bool; 6]); 7] = [
        (&[], [false, false, true, false, false, true]),
        (&[1, 0, 1], [false, false, true, false, false, true]),
        (&[0, 1, 0], [true, true, true, false, false, true]),
        (&[0, 0, 0], [false, true, false, false, false, true]),
        (
            &[0, 0, 0, 0, 1, 0, 0, 0, 0],
            [false, true, false, false, false, true],
        ),
        (
            &[0, 0, 0, 0, 1, 0, 0, 0, 0, 0],
            [false, true, false, true, true, true],
        ),
        (
            &[0, 0, 0, 0, 1, 0, 0, 0, 0, 0, 0],
            [false, true, false, false, true, false],
        ),
    ];
    for (trace, kept) in traces {
        let found = [
            keeps::<Exactly<2>>(&over_a(Kind::Exactly { n: 2 }), trace),
            keeps::<AtLeast<2>>(&over_a(Kind::AtLeast { n: 2 }), trace),
            keeps::<AtMost<2>>(&over_a(Kind::AtMost { n: 2 }), trace),
            keeps::<Exactly<9>>(&over_a(Kind::Exactly { n: 9 }), trace),
            keeps::<AtLeast<9>>(&over_a(Kind::AtLeast { n: 9 }), trace),
            keeps::<AtMost<9>>(&over_a(Kind::AtMost { n: 9 }), trace),
        ];
        assert_eq!(rt; found, kept, "{trace:?}");
    }
}
