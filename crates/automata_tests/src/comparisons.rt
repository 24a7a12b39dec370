ghost use Rattle.template_core.specs.Constraints.{IsWellMade, IsWellMadeFor};

use crate::limits::STATES;
use decl_base::{Refusal, Trace};
use model_compare::{Relation, compare};
use std::test::Fail;
use template_core::{Constraint, Kind};

// A constraint of the first activity of one, and another name.
fn of_one(kind: Kind) -> Constraint
    requires { IsWellMade kind 0 0 }
    ensures { IsWellMadeFor 2 result }
{
    Constraint {
        kind,
        first: 0,
        second: 0,
    }
}

// A constraint of two activities, which are all but another name.
fn of_two(kind: Kind) -> Constraint
    requires { IsWellMade kind 0 1 }
    ensures { IsWellMadeFor 3 result }
{
    Constraint {
        kind,
        first: 0,
        second: 1,
    }
}

fn is_trace(found: Option<&Trace>, events: &[u32]) -> bool {
    match found {
        Some(trace) => trace.events() == events,
        None => false,
    }
}

#[test]
fn models_are_compared(rt: HostRuntime) -> Result<(), Fail> {
    let alloc = rt.alloc();
    let chain = [of_two(Kind::ChainResponse)];
    let alternate = [of_two(Kind::AlternateResponse)];
    let stronger = compare(alloc, &chain, &alternate, 3, STATES)?;
    assert_eq!(rt; stronger.relation(), Relation::Stronger);
    assert!(rt; stronger.only_first().is_none());
    assert!(rt; is_trace(stronger.only_second(), &[0, 2, 1]));
    let weaker = compare(alloc, &alternate, &chain, 3, STATES)?;
    assert_eq!(rt; weaker.relation(), Relation::Weaker);
    let equal = compare(alloc, &chain, &chain, 3, STATES)?;
    assert_eq!(rt; equal.relation(), Relation::Equal);
    Ok(())
}

#[test]
fn neither_model_is_stronger(rt: HostRuntime) -> Result<(), Fail> {
    let neither = compare(
        rt.alloc(),
        &[of_one(Kind::Init)],
        &[of_one(Kind::End)],
        2,
        STATES,
    )?;
    assert_eq!(rt; neither.relation(), Relation::Neither);
    assert!(rt; is_trace(neither.only_first(), &[0, 1]));
    assert!(rt; is_trace(neither.only_second(), &[1, 0]));
    Ok(())
}

#[test]
fn wide_lists_are_refused(rt: HostRuntime) -> Result<(), Fail> {
    let chain = [of_two(Kind::ChainResponse)];
    let wide = [of_two(Kind::AlternateResponse)];
    match compare(rt.alloc(), &chain, &wide, 3, 1) {
        Err(refusal) => assert_eq!(rt; refusal, Refusal::States { phase: 5, built: 1 }),
        Ok(_) => assert!(rt; false),
    }
    match compare(rt.alloc(), &[], &wide, 3, 1) {
        Err(refusal) => assert_eq!(rt; refusal, Refusal::States { phase: 6, built: 1 }),
        Ok(_) => assert!(rt; false),
    }
    Ok(())
}
