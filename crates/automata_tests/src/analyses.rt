use crate::limits::STATES;
use model_compare::analyse;
use std::test::Fail;
use template_core::{Constraint, Kind};

#[test]
fn a_model_is_analysed(rt: HostRuntime) -> Result<(), Fail> {
    let alloc = rt.alloc();
    // The names a and b, and another name.
    let list = [
        Constraint {
            kind: Kind::Init,
            first: 0,
            second: 0,
        },
        Constraint {
            kind: Kind::NotCoExistence,
            first: 0,
            second: 1,
        },
        Constraint {
            kind: Kind::Participation,
            first: 0,
            second: 0,
        },
    ];
    let analysed = analyse(alloc, &list, 3, STATES, 3)?;
    match analysed.accepts() {
        Some(trace) => assert_eq!(rt; trace.events(), [0].as_slice()),
        None => assert!(rt; false),
    }
    assert_eq!(rt; analysed.dead(), [1].as_slice());
    assert_eq!(rt; analysed.redundant(), [3].as_slice());
    let traces = analysed.traces();
    assert_eq!(rt; traces.len(), 3);
    if traces.len() == 3 {
        assert_eq!(rt; traces[0].events(), [0].as_slice());
        assert_eq!(rt; traces[1].events(), [0, 0].as_slice());
        assert_eq!(rt; traces[2].events(), [0, 2].as_slice());
    }
    Ok(())
}
