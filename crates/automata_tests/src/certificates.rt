//! Certificates made by hand. The first is that of the log whose one trace is the one event a: its model is Init(a), AtMostOne(a),
//! and End(a) and Participation(a) are dropped as implied.

use chain_cert::{Chain, Claim, Dropped, Link, Pairs, Verdict, verify};
use decl_base::{Refusal, Trace};
use std::alloc::Global;
use std::test::Fail;
use template_core::{Constraint, Kind};

fn one(kind: Kind, first: u32) -> Constraint {
    Constraint {
        kind,
        first,
        second: first,
    }
}

fn implied(kind: Kind, first: u32) -> Dropped {
    Dropped {
        constraint: one(kind, first),
        conflict: false,
    }
}

/// The claim of the log of the one event, with these traces and these dropped constraints.
fn claim_of_one(
    alloc: Global,
    witness: &[u32],
    example: &[u32],
    dropped: Vec<Dropped>,
) -> Result<Option<Claim>, Refusal> {
    let model = vec![in alloc; one(Kind::Init, 0), one(Kind::AtMostOne, 0)]?;
    let witnesses = vec![in alloc; Trace::of(alloc, &[])?, Trace::of(alloc, witness)?]?;
    Ok(Claim::of(1, model, witnesses, dropped, Trace::of(alloc, example)?))
}

/// The links of its model. The second has these triples.
fn links_of_one(alloc: Global, triples: &[[u32; 3]]) -> Result<Option<Vec<Link>>, Refusal> {
    let first = Link::of(
        vec![in alloc; false, true]?,
        vec![in alloc; 0]?,
        vec![in alloc; 1, 1]?,
        vec![in alloc; [0, 0, 0], [0, 1, 1]]?,
    );
    let second = Link::of(
        vec![in alloc; false, true, false]?,
        vec![in alloc; 0]?,
        vec![in alloc; 1, 2, 2]?,
        Vec::from_slice(alloc, triples)?,
    );
    both(alloc, first, second)
}

fn both(
    alloc: Global,
    first: Option<Link>,
    second: Option<Link>,
) -> Result<Option<Vec<Link>>, Refusal> {
    match (first, second) {
        (Some(first), Some(second)) => Ok(Some(vec![in alloc; first, second]?)),
        _ => Ok(None),
    }
}

fn pairs_of_one(alloc: Global) -> Result<Option<Vec<Pairs>>, Refusal> {
    let end = Pairs::of(vec![in alloc; [0, 0], [1, 1], [2, 1]]?);
    let participation = Pairs::of(vec![in alloc; [0, 0], [1, 1], [2, 1]]?);
    match (end, participation) {
        (Some(end), Some(participation)) => Ok(Some(vec![in alloc; end, participation]?)),
        _ => Ok(None),
    }
}

/// What verifying answers, or None where a part hasn't its form.
fn answer(
    claim: Option<Claim>,
    links: Option<Vec<Link>>,
    pairs: Option<Vec<Pairs>>,
) -> Option<Verdict> {
    let claim = claim?;
    let chain = Chain::of(&claim, links?, pairs?)?;
    Some(verify(&claim, &chain))
}

const TRIPLES: [[u32; 3]; 3] = [[0, 0, 0], [1, 1, 1], [1, 2, 2]];

/// What verifying the claim of the one event answers.
fn answer_of_one(
    alloc: Global,
    witness: &[u32],
    example: &[u32],
    conflict: bool,
    triples: &[[u32; 3]],
) -> Result<Option<Verdict>, Refusal> {
    let end = Dropped {
        constraint: one(Kind::End, 0),
        conflict,
    };
    let dropped = vec![in alloc; end, implied(Kind::Participation, 0)]?;
    Ok(answer(
        claim_of_one(alloc, witness, example, dropped)?,
        links_of_one(alloc, triples)?,
        pairs_of_one(alloc)?,
    ))
}

#[test]
fn checks_are_tried_in_order(rt: HostRuntime) -> Result<(), Fail> {
    // The witness, the example, whether End is dropped for a conflict, the triples, and the check that fails.
    let open = &TRIPLES[..2];
    let cases: [(&[u32], &[u32], bool, &[[u32; 3]], Verdict); 6] = [
        (&[0, 0], &[0], false, &TRIPLES, Verdict::Yes),
        (
            &[0, 0],
            &[],
            false,
            &TRIPLES,
            Verdict::No { check: 1, at: 1 },
        ),
        (&[0], &[0], false, &TRIPLES, Verdict::No { check: 2, at: 2 }),
        (&[0, 0], &[0], false, open, Verdict::No { check: 3, at: 2 }),
        (
            &[0, 0],
            &[0],
            true,
            &TRIPLES,
            Verdict::No { check: 4, at: 1 },
        ),
        (&[0], &[], true, open, Verdict::No { check: 1, at: 1 }),
    ];
    for (witness, example, conflict, triples, want) in cases {
        let answer = answer_of_one(rt.alloc(), witness, example, conflict, triples)?;
        assert_eq!(rt; answer, Some(want));
    }
    Ok(())
}

#[test]
fn parts_that_have_no_form(rt: HostRuntime) -> Result<(), Fail> {
    let cases: [(&[u32], &[[u32; 3]]); 5] = [
        // The second link's triples don't ascend, or one isn't of its states.
        (&[0, 0], &[[0, 0, 0], [0, 0, 0]]),
        (&[0, 0], &[[0, 0, 3]]),
        // One isn't of a state of the link before, or of the table.
        (&[0, 0], &[[2, 0, 0]]),
        (&[0, 0], &[[0, 3, 0]]),
        // A trace isn't over the symbols.
        (&[1], &TRIPLES),
    ];
    for (witness, triples) in cases {
        let answer = answer_of_one(rt.alloc(), witness, &[0], false, triples)?;
        assert_eq!(rt; answer, None);
    }
    Ok(())
}

/// A row is too short, and a column is none of a row.
#[test]
fn links_that_have_no_form(rt: HostRuntime) -> Result<(), Fail> {
    let alloc = rt.alloc();
    let row = Link::of(
        vec![in alloc; true, true]?,
        vec![in alloc; 0]?,
        vec![in alloc; 0, 1, 1]?,
        Vec::new(alloc),
    );
    assert!(rt; row.is_none());
    let column = Link::of(
        vec![in alloc; true]?,
        vec![in alloc; 1]?,
        vec![in alloc; 0]?,
        Vec::new(alloc),
    );
    assert!(rt; column.is_none());
    Ok(())
}

/// Over a, b and c the model is AtMostOne(a), Init(a), and Init(b) is dropped.
fn claim_of_three(alloc: Global, conflict: bool) -> Result<Option<Claim>, Refusal> {
    let init = Dropped {
        constraint: one(Kind::Init, 1),
        conflict,
    };
    Ok(Claim::of(
        3,
        vec![in alloc; one(Kind::AtMostOne, 0), one(Kind::Init, 0)]?,
        vec![in alloc; Trace::of(alloc, &[0, 0])?, Trace::of(alloc, &[])?]?,
        vec![in alloc; init]?,
        Trace::of(alloc, &[0])?,
    ))
}

/// The links of its model: to both, b and c are one column.
fn links_of_three(alloc: Global) -> Result<Option<Vec<Link>>, Refusal> {
    let first = Link::of(
        vec![in alloc; true, true, false]?,
        vec![in alloc; 0, 1, 1]?,
        vec![in alloc; 1, 0, 2, 1, 2, 2]?,
        vec![in alloc; [0, 0, 0], [0, 1, 1], [0, 2, 2]]?,
    );
    // The empty trace, one a at the front, and all else.
    let second = Link::of(
        vec![in alloc; false, true, false]?,
        vec![in alloc; 0, 1, 1]?,
        vec![in alloc; 1, 2, 2, 1, 2, 2]?,
        Vec::from_slice(
            alloc,
            &[
                [0, 0, 0],
                [0, 2, 2],
                [1, 1, 1],
                [1, 2, 2],
                [2, 1, 2],
                [2, 2, 2],
            ],
        )?,
    );
    both(alloc, first, second)
}

fn pairs_of_three(alloc: Global) -> Result<Option<Vec<Pairs>>, Refusal> {
    match Pairs::of(vec![in alloc; [0, 0], [1, 2], [2, 1], [2, 2]]?) {
        Some(pairs) => Ok(Some(vec![in alloc; pairs]?)),
        None => Ok(None),
    }
}

#[test]
fn conflicts_and_symbols_of_one_column(rt: HostRuntime) -> Result<(), Fail> {
    let alloc = rt.alloc();
    for (conflict, want) in [
        (true, Verdict::Yes),
        (false, Verdict::No { check: 4, at: 1 }),
    ] {
        let claim = claim_of_three(alloc, conflict)?;
        let answer = answer(claim, links_of_three(alloc)?, pairs_of_three(alloc)?);
        assert_eq!(rt; answer, Some(want));
    }
    Ok(())
}
