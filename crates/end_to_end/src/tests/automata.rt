//! Automata of the templates: their products, the least traces that they accept, and least automata.
ghost use Rattle.template_core.specs.Constraints.{IsTemplate};

use dfa_core::Dfa;
use dfa_minimise::least;
use dfa_product::{Want, first_trace, meet};
use std::alloc::Global;
use std::process::Abort;
use std::test::Fail;
use template_core::{Constraint, Kind};
use template_set::table_of;

/// The traces that are accepted and keep the constraint.
fn narrowed(
    rt: &impl Abort,
    alloc: Global,
    dfa: &Dfa,
    kind: Kind,
    first: u32,
    second: u32,
) -> Result<Dfa, Fail>
    requires { IsTemplate kind }
{
    let table = table_of(kind);
    let constraint = Constraint {
        kind,
        first,
        second,
    };
    let product = u64::from(dfa.states()) * u64::from(table.states);
    assert!(rt; product < 1 << 32);
    Ok(meet(alloc, dfa, &table, &constraint)?)
}

/// The least trace that the automaton accepts.
fn least_accepted(
    rt: &impl Abort,
    alloc: Global,
    dfa: &Dfa,
    want: Option<&[u32]>,
) -> Result<(), Fail> {
    match first_trace(alloc, dfa, &Want::Accepted)? {
        Some(trace) => assert_eq!(rt; Some(trace.events()), want),
        None => assert!(rt; want.is_none()),
    }
    Ok(())
}

/// The least trace that the automaton accepts and that doesn't keep the constraint.
fn least_beside(
    rt: &impl Abort,
    alloc: Global,
    dfa: &Dfa,
    constraint: Constraint,
    want: &[u32],
) -> Result<(), Fail>
    requires { IsTemplate constraint.kind }
{
    let table = table_of(constraint.kind);
    assert!(rt; u64::from(dfa.states()) * u64::from(table.states) < 1 << 32);
    let beside = Want::Beside { table, constraint };
    match first_trace(alloc, dfa, &beside)? {
        Some(trace) => assert_eq!(rt; trace.events(), want),
        None => assert!(rt; false),
    }
    Ok(())
}

#[test]
fn least_traces(rt: HostRuntime) -> Result<(), Fail> {
    let all = Dfa::everything(rt.alloc(), 2)?;
    let once = narrowed(&rt, rt.alloc(), &all, Kind::AtMostOne, 0, 0)?;
    let both = narrowed(&rt, rt.alloc(), &once, Kind::Participation, 1, 1)?;
    least_accepted(&rt, rt.alloc(), &both, Some(&[1]))?;
    let apart = narrowed(&rt, rt.alloc(), &all, Kind::NotCoExistence, 0, 1)?;
    let one = narrowed(&rt, rt.alloc(), &apart, Kind::Participation, 0, 0)?;
    let none = narrowed(&rt, rt.alloc(), &one, Kind::Participation, 1, 1)?;
    least_accepted(&rt, rt.alloc(), &none, None)?;
    let response = Constraint {
        kind: Kind::Response,
        first: 0,
        second: 1,
    };
    let three = Dfa::everything(rt.alloc(), 3)?;
    least_beside(&rt, rt.alloc(), &three, response, &[0])?;
    let participation = Constraint {
        kind: Kind::Participation,
        first: 0,
        second: 0,
    };
    least_beside(&rt, rt.alloc(), &three, participation, &[])?;
    Ok(())
}

#[test]
fn numbers_of_states(rt: HostRuntime) -> Result<(), Fail> {
    let all = Dfa::everything(rt.alloc(), 2)?;
    let begins = narrowed(&rt, rt.alloc(), &all, Kind::Init, 0, 0)?;
    let ends = narrowed(&rt, rt.alloc(), &begins, Kind::End, 1, 1)?;
    assert_eq!(rt; ends.states(), 5);
    assert_eq!(rt; least(rt.alloc(), &ends)?.states(), 4);
    Ok(())
}

#[test]
fn columns_of_many_symbols(rt: HostRuntime) -> Result<(), Fail> {
    let all = Dfa::everything(rt.alloc(), 1_000)?;
    assert_eq!(rt; all.columns(), 1);
    let answered = narrowed(&rt, rt.alloc(), &all, Kind::Response, 3, 7)?;
    assert_eq!(rt; answered.columns(), 3);
    let taken = narrowed(&rt, rt.alloc(), &all, Kind::Participation, 500, 500)?;
    assert_eq!(rt; taken.columns(), 2);
    least_accepted(&rt, rt.alloc(), &taken, Some(&[500]))?;
    let response = Constraint {
        kind: Kind::Response,
        first: 3,
        second: 7,
    };
    least_beside(&rt, rt.alloc(), &taken, response, &[3, 500])?;
    Ok(())
}
