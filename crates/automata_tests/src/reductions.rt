ghost use Rattle.std.specs.Bool.{OnTrue};
ghost use Rattle.std.specs.Prelude.{◌≤◌, length, All, OnOk};
ghost use Rattle.decl_base.specs.Limits.{greatest_state_limit, standard};
ghost use Rattle.template_core.specs.Constraints.{IsWellMadeFor};

use crate::limits::{MOST_CONSTRAINTS, MOST_STATES, STATES};
use decl_base::Refusal;
use reduce_model::{Decision, Reduced, Sifted, reduce, reduce_within, sift, sift_within};
use std::alloc::{AllocError, Global};
use std::test::Fail;
use template_core::{Constraint, Kind};

fn one(kind: Kind, first: u32) -> Constraint {
    Constraint {
        kind,
        first,
        second: first,
    }
}

fn two(kind: Kind, first: u32, second: u32) -> Constraint {
    Constraint {
        kind,
        first,
        second,
    }
}

// No counted template is asked for here.
fn is_well_made(constraint: &Constraint, symbols: u32) -> bool
    ensures { OnTrue result (IsWellMadeFor symbols constraint.now) }
{
    let same = constraint.first == constraint.second;
    let made = match constraint.kind {
        Kind::Init | Kind::End | Kind::Participation | Kind::AtMostOne => same,
        Kind::Exactly { .. } | Kind::AtLeast { .. } | Kind::AtMost { .. } => false,
        Kind::ChainSuccession
        | Kind::AlternateSuccession
        | Kind::Succession
        | Kind::CoExistence
        | Kind::ChainResponse
        | Kind::AlternateResponse
        | Kind::Response
        | Kind::ChainPrecedence
        | Kind::AlternatePrecedence
        | Kind::Precedence
        | Kind::RespondedExistence
        | Kind::NotCoExistence
        | Kind::NotSuccession
        | Kind::NotChainSuccession
        | Kind::NotRespondedExistence
        | Kind::NotResponse
        | Kind::NotPrecedence
        | Kind::NotChainResponse
        | Kind::NotChainPrecedence => !same,
    };
    constraint.first < symbols && constraint.second < symbols && made
}

// Whether a list may be sifted and reduced.
fn admitted(list: &[Constraint], symbols: u32, states: u64) -> Result<(), Refusal>
    ensures made { OnOk result (All (IsWellMadeFor symbols) list.now) }
    ensures few { OnOk result (length list.now ≤ standard.candidates) }
    ensures some_states { OnOk result (1 ≤ states) }
    ensures few_states { OnOk result (states ≤ greatest_state_limit) }
{
    for constraint in list {
        if !is_well_made(constraint, symbols) {
            return Err(Refusal::NotJson);
        }
    }
    if list.len() > MOST_CONSTRAINTS || states < 1 || states > MOST_STATES {
        return Err(Refusal::NotJson);
    }
    Ok(())
}

fn sifted(
    alloc: Global,
    list: &[Constraint],
    symbols: u32,
    states: u64,
) -> Result<Sifted, Refusal> {
    admitted(list, symbols, states)?;
    sift(alloc, list, symbols, states)
}

fn reduced(
    alloc: Global,
    list: &[Constraint],
    symbols: u32,
    states: u64,
) -> Result<Reduced, Refusal> {
    admitted(list, symbols, states)?;
    reduce(alloc, list, symbols, states)
}

#[test]
fn later_conflicts_are_dropped(rt: HostRuntime) -> Result<(), Fail> {
    // The candidates of the log of the traces 0 and 1, in their order.
    let list = [
        one(Kind::AtMostOne, 0),
        one(Kind::AtMostOne, 1),
        two(Kind::NotCoExistence, 0, 1),
        two(Kind::NotSuccession, 0, 1),
        two(Kind::NotSuccession, 1, 0),
        two(Kind::NotChainSuccession, 0, 1),
        two(Kind::NotChainSuccession, 1, 0),
        one(Kind::Init, 0),
        one(Kind::Init, 1),
        one(Kind::End, 0),
        one(Kind::End, 1),
        one(Kind::Participation, 0),
        one(Kind::Participation, 1),
    ];
    let sifted = sifted(rt.alloc(), &list, 2, STATES)?;
    for (place, decision) in sifted.decisions().iter().enumerate() {
        let want = match place {
            8 | 10 | 12 => Decision::Conflict,
            _ => Decision::Kept,
        };
        assert_eq!(rt; *decision, want, "at {place}");
    }
    assert_eq!(rt; sifted.decisions().len(), 13);
    assert_eq!(rt; sifted.example().events(), [0].as_slice());
    Ok(())
}

#[test]
fn example_is_shortest(rt: HostRuntime) -> Result<(), Fail> {
    let empty = sifted(rt.alloc(), &[], 2, 1)?;
    assert!(rt; empty.example().events().is_empty());
    let list = [one(Kind::AtMostOne, 0), one(Kind::Participation, 1)];
    let shortest = sifted(rt.alloc(), &list, 2, STATES)?;
    assert_eq!(rt; shortest.example().events(), [1].as_slice());
    Ok(())
}

#[test]
fn limit_is_exact(rt: HostRuntime) -> Result<(), Fail> {
    let alloc = rt.alloc();
    let pair = [one(Kind::Init, 0), one(Kind::End, 1)];
    let refusal = sifted(alloc, &pair, 2, 3).err();
    assert_eq!(rt; refusal, Some(Refusal::States { phase: 1, built: 2 }));
    assert!(rt; sifted(alloc, &pair, 2, 4).is_ok());
    let mut list = vec![in alloc; one(Kind::Init, 0), one(Kind::End, 15)]?;
    for activity in 0..15 {
        list.push(one(Kind::Participation, activity))?;
    }
    let refusal = sifted(alloc, &list, 16, 16_386).err();
    assert_eq!(rt;
        refusal,
        Some(Refusal::States {
            phase: 1,
            built: 17
        })
    );
    assert!(rt; sifted(alloc, &list, 16, 16_387).is_ok());
    Ok(())
}

fn candidates(
    alloc: Global,
    rows: &[(Constraint, Decision)],
) -> Result<Vec<Constraint>, AllocError> {
    let mut list = Vec::new(alloc);
    for (constraint, _) in rows {
        list.push(*constraint)?;
    }
    Ok(list)
}

// Whether a list, each candidate with its decision, is reduced so, with these witnesses and this example.
fn is_reduced_to(
    alloc: Global,
    rows: &[(Constraint, Decision)],
    symbols: u32,
    witnesses: &[&[u32]],
    example: &[u32],
) -> Result<bool, Refusal> {
    let list = candidates(alloc, rows)?;
    let reduced = reduced(alloc, &list, symbols, STATES)?;
    Ok(is_as_told(rows, &reduced, witnesses, example))
}

// And so within a number of states.
fn is_reduced_within_to(
    alloc: Global,
    rows: &[(Constraint, Decision)],
    states: u64,
    witnesses: &[&[u32]],
    example: &[u32],
) -> Result<bool, Refusal> {
    let list = candidates(alloc, rows)?;
    admitted(&list, 2, states)?;
    let sifted = sift_within(alloc, &list, 2, states)?;
    let reduced = reduce_within(alloc, &list, 2, states)?;
    Ok(
        sifted.example().events() == reduced.example().events()
            && is_as_told(rows, &reduced, witnesses, example),
    )
}

fn is_as_told(
    rows: &[(Constraint, Decision)],
    reduced: &Reduced,
    witnesses: &[&[u32]],
    example: &[u32],
) -> bool {
    for (row, decision) in rows.iter().zip(reduced.decisions()) {
        if row.1 != *decision {
            return false;
        }
    }
    for (wanted, witness) in witnesses.iter().zip(reduced.witnesses()) {
        if *wanted != witness.events() {
            return false;
        }
    }
    reduced.decisions().len() == rows.len()
        && reduced.witnesses().len() == witnesses.len()
        && reduced.example().events() == example
}

// Dropped for the chain succession, which has the place 6 below.
const BY_CHAIN: Decision = Decision::Weaker { by: 6 };

// The candidates of the log of the trace 0, 1 twice, in their order.
fn pair() -> [(Constraint, Decision); 20] {
    [
        (one(Kind::Init, 0), Decision::Kept),
        (one(Kind::End, 1), Decision::Kept),
        (one(Kind::Participation, 0), Decision::Weaker { by: 0 }),
        (one(Kind::Participation, 1), Decision::Weaker { by: 1 }),
        (one(Kind::AtMostOne, 0), Decision::Kept),
        (one(Kind::AtMostOne, 1), Decision::Kept),
        (two(Kind::ChainSuccession, 0, 1), Decision::FirstPass),
        (two(Kind::AlternateSuccession, 0, 1), BY_CHAIN),
        (two(Kind::Succession, 0, 1), BY_CHAIN),
        (two(Kind::CoExistence, 0, 1), BY_CHAIN),
        (two(Kind::ChainResponse, 0, 1), BY_CHAIN),
        (two(Kind::AlternateResponse, 0, 1), BY_CHAIN),
        (two(Kind::Response, 0, 1), BY_CHAIN),
        (two(Kind::ChainPrecedence, 0, 1), BY_CHAIN),
        (two(Kind::AlternatePrecedence, 0, 1), BY_CHAIN),
        (two(Kind::Precedence, 0, 1), BY_CHAIN),
        (two(Kind::RespondedExistence, 0, 1), BY_CHAIN),
        (two(Kind::RespondedExistence, 1, 0), BY_CHAIN),
        (two(Kind::NotSuccession, 1, 0), Decision::FirstPass),
        (
            two(Kind::NotChainSuccession, 1, 0),
            Decision::Weaker { by: 18 },
        ),
    ]
}

#[test]
fn each_reason_is_told(rt: HostRuntime) -> Result<(), Fail> {
    let witnesses: [&[u32]; 4] = [&[1], &[0], &[0, 0, 1], &[0, 1, 1]];
    assert!(rt; is_reduced_to(rt.alloc(), &pair(), 2, &witnesses, &[0, 1])?);
    // The log of the traces 0 and 1.
    let apart = [
        (one(Kind::AtMostOne, 0), Decision::Kept),
        (one(Kind::AtMostOne, 1), Decision::SecondPass),
        (two(Kind::NotCoExistence, 0, 1), Decision::Kept),
        (two(Kind::NotSuccession, 0, 1), Decision::Weaker { by: 2 }),
        (two(Kind::NotSuccession, 1, 0), Decision::Weaker { by: 2 }),
        (
            two(Kind::NotChainSuccession, 0, 1),
            Decision::Weaker { by: 2 },
        ),
        (
            two(Kind::NotChainSuccession, 1, 0),
            Decision::Weaker { by: 2 },
        ),
        (one(Kind::Init, 0), Decision::Kept),
        (one(Kind::Init, 1), Decision::Conflict),
        (one(Kind::End, 0), Decision::FirstPass),
        (one(Kind::End, 1), Decision::Conflict),
        (one(Kind::Participation, 0), Decision::Weaker { by: 7 }),
        (one(Kind::Participation, 1), Decision::Conflict),
    ];
    let witnesses: [&[u32]; 3] = [&[0, 0], &[0, 1], &[]];
    assert!(rt; is_reduced_to(rt.alloc(), &apart, 2, &witnesses, &[0])?);
    // The log of the trace 0.
    let alone = [
        (one(Kind::Init, 0), Decision::Kept),
        (one(Kind::End, 0), Decision::FirstPass),
        (one(Kind::Participation, 0), Decision::Weaker { by: 0 }),
        (one(Kind::AtMostOne, 0), Decision::Kept),
    ];
    let witnesses: [&[u32]; 2] = [&[], &[0, 0]];
    assert!(rt; is_reduced_to(rt.alloc(), &alone, 1, &witnesses, &[0])?);
    Ok(())
}

#[test]
fn tests_are_counted(rt: HostRuntime) -> Result<(), Fail> {
    let list = candidates(rt.alloc(), &pair())?;
    // Without the first constraint, the second and the third that stay tell five traces apart.
    let refusal = reduced(rt.alloc(), &list, 2, 4).err();
    assert_eq!(rt; refusal, Some(Refusal::States { phase: 3, built: 2 }));
    assert!(rt; reduced(rt.alloc(), &list, 2, 5).is_ok());
    Ok(())
}

#[test]
fn limit_is_gone_past(rt: HostRuntime) -> Result<(), Fail> {
    let alloc = rt.alloc();
    let five: [&[u32]; 4] = [&[1], &[0], &[0, 0, 1], &[0, 1, 1]];
    assert!(rt; is_reduced_within_to(alloc, &pair(), 5, &five, &[0, 1])?);
    let mut rows = pair();
    rows[0].1 = Decision::Untested;
    let four: [&[u32]; 3] = [&[0], &[0, 0, 1], &[0, 1, 1]];
    assert!(rt; is_reduced_within_to(alloc, &rows, 4, &four, &[0, 1])?);
    let mut rows = pair();
    for (place, row) in rows.iter_mut().enumerate() {
        row.1 = match place {
            0 | 4 => Decision::Kept,
            2 => Decision::Weaker { by: 0 },
            15 | 18 => Decision::FirstPass,
            17 => Decision::Weaker { by: 15 },
            19 => Decision::Weaker { by: 18 },
            _ => Decision::Beyond,
        };
    }
    let three: [&[u32]; 2] = [&[], &[0, 0]];
    assert!(rt; is_reduced_within_to(alloc, &rows, 3, &three, &[0])?);
    Ok(())
}
