ghost use Rattle.std.specs.Prelude.{◌≡◌};
ghost use Rattle.template_core.specs.Tables.{IsTable};

use decl_base::Trace;
use dfa_core::Dfa;
use dfa_product::{Want, first_after, first_outside, first_trace, intersection, meet};
use std::test::Fail;
use template_core::{Constraint, Kind, Table};

// The first event is the first activity.
fn init() -> Table
    ensures table { IsTable result }
    ensures states { result.states ≡ 3 }
{
    let mut next = [[2; 3]; 12];
    next[0] = [1, 2, 2];
    next[1] = [1, 1, 1];
    let mut accepting = [false; 12];
    accepting[1] = true;
    Table {
        states: 3,
        start: 0,
        next,
        accepting,
    }
}

// The last event is the first activity.
fn end() -> Table
    ensures table { IsTable result }
    ensures states { result.states ≡ 2 }
{
    let mut accepting = [false; 12];
    accepting[1] = true;
    Table {
        states: 2,
        start: 0,
        next: [[1, 0, 0]; 12],
        accepting,
    }
}

const BEGINS: Constraint = Constraint {
    kind: Kind::Init,
    first: 0,
    second: 0,
};

const ENDS: Constraint = Constraint {
    kind: Kind::End,
    first: 1,
    second: 1,
};

fn is_trace(found: &Option<Trace>, events: &[u32]) -> bool {
    match found {
        Some(trace) => trace.events() == events,
        None => false,
    }
}

#[test]
fn intersections(rt: HostRuntime) -> Result<(), Fail> {
    let alloc = rt.alloc();
    let all = Dfa::everything(alloc, 3)?;
    let once = meet(alloc, &all, &init(), &BEGINS)?;
    let last = meet(alloc, &all, &end(), &ENDS)?;
    assert_eq!(rt; (all.columns(), once.columns(), last.columns()), (1, 2, 2));
    assert_eq!(rt; intersection(alloc, &once, &last)?.states(), 5);
    assert!(rt; is_trace(&first_outside(alloc, &last, &once)?, &[1]));
    assert!(rt; first_outside(alloc, &once, &all)?.is_none());
    Ok(())
}

#[test]
fn least_traces(rt: HostRuntime) -> Result<(), Fail> {
    let alloc = rt.alloc();
    let once = meet(alloc, &Dfa::everything(alloc, 3)?, &init(), &BEGINS)?;
    let both = meet(alloc, &once, &end(), &ENDS)?;
    assert_eq!(rt; (both.states(), both.columns()), (5, 3));
    assert!(rt; is_trace(&first_trace(alloc, &both, &Want::Accepted)?, &[0, 1]));
    let beside = Want::Beside {
        table: end(),
        constraint: ENDS,
    };
    assert!(rt; is_trace(&first_trace(alloc, &once, &beside)?, &[0]));
    Ok(())
}

// No trace begins with 0 and with 1.
#[test]
fn nothing_is_accepted(rt: HostRuntime) -> Result<(), Fail> {
    let alloc = rt.alloc();
    let once = meet(alloc, &Dfa::everything(alloc, 3)?, &init(), &BEGINS)?;
    let none = meet(
        alloc,
        &once,
        &init(),
        &Constraint {
            kind: Kind::Init,
            first: 1,
            second: 1,
        },
    )?;
    assert!(rt; first_trace(alloc, &none, &Want::Accepted)?.is_none());
    Ok(())
}

// Of the traces that end with 1.
#[test]
fn next_traces(rt: HostRuntime) -> Result<(), Fail> {
    let alloc = rt.alloc();
    let all = Dfa::everything(alloc, 3)?;
    let last = meet(alloc, &all, &end(), &ENDS)?;
    let empty = first_after(alloc, &last, &Trace::of(alloc, &[])?)?;
    assert!(rt; is_trace(&empty, &[1]));
    let longer = first_after(alloc, &last, &Trace::of(alloc, &[2, 1])?)?;
    assert!(rt; is_trace(&longer, &[0, 0, 1]));
    let outside = first_after(alloc, &last, &Trace::of(alloc, &[1, 2, 0])?)?;
    assert!(rt; is_trace(&outside, &[1, 2, 1]));
    Ok(())
}
