use crate::{AlternateResponse, ChainPrecedence, Precedence, Response};
use template_core::{Constraint, Kind, keeps};

/// Traces of a = 0, b = 1 and c = 2.
#[test]
fn traces_are_kept(rt: HostRuntime) {
    let of = |kind: Kind| Constraint {
        kind,
        first: 0,
        second: 1,
    };
    let aab = [0, 0, 1];
    assert!(rt; keeps::<Response>(&of(Kind::Response), &aab));
    assert!(rt; !keeps::<AlternateResponse>(&of(Kind::AlternateResponse), &aab));
    assert!(rt; keeps::<AlternateResponse>(&of(Kind::AlternateResponse), &[0, 2, 1]));
    assert!(rt; keeps::<Precedence>(&of(Kind::Precedence), &[0, 1, 0]));
    assert!(rt; !keeps::<ChainPrecedence>(&of(Kind::ChainPrecedence), &[1, 0]));
}
