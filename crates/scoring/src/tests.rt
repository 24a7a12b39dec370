//! Scores of small logs. The activities a, b and c are 0, 1 and 2, and so are their ranks.
ghost use Rattle.std.specs.Prelude.{◌≡◌, IfOk};
ghost use Rattle.interplay_kb.specs.Stands.{activity_count};
ghost use Rattle.scoring.specs.Conditions.{HasEachEvent};

use crate::{Scored, candidates};
use decl_base::{Limits, Refusal, Threshold, Thresholds};
use interplay_kb::{Kb, feed_trace, with_activities};
use std::alloc::Global;
use std::process::Abort;
use std::test::Fail;
use template_core::{Kind, Repertoire};

const ANY: Thresholds = Thresholds {
    support: Threshold { millionths: 0 },
    confidence: Threshold { millionths: 0 },
    interest: Threshold { millionths: 0 },
};

const SURE: Thresholds = Thresholds {
    support: Threshold {
        millionths: 1_000_000,
    },
    confidence: Threshold {
        millionths: 1_000_000,
    },
    interest: Threshold {
        millionths: 1_000_000,
    },
};

/// The trace aa, twice.
fn aa_twice(alloc: Global) -> Result<Kb, Refusal>
    ensures events { IfOk result HasEachEvent }
    ensures activities { IfOk result (λ kb. activity_count kb ≡ 1) }
{
    let mut kb = with_activities(alloc, 1)?;
    feed_trace(&mut kb, &[0, 0]);
    feed_trace(&mut kb, &[0, 0]);
    Ok(kb)
}

/// The trace aab.
fn aab(alloc: Global) -> Result<Kb, Refusal>
    ensures events { IfOk result HasEachEvent }
    ensures activities { IfOk result (λ kb. activity_count kb ≡ 2) }
{
    let mut kb = with_activities(alloc, 2)?;
    feed_trace(&mut kb, &[0, 0, 1]);
    Ok(kb)
}

/// The trace aba.
fn aba(alloc: Global) -> Result<Kb, Refusal>
    ensures events { IfOk result HasEachEvent }
    ensures activities { IfOk result (λ kb. activity_count kb ≡ 2) }
{
    let mut kb = with_activities(alloc, 2)?;
    feed_trace(&mut kb, &[0, 1, 0]);
    Ok(kb)
}

/// The trace ba.
fn ba(alloc: Global) -> Result<Kb, Refusal>
    ensures events { IfOk result HasEachEvent }
    ensures activities { IfOk result (λ kb. activity_count kb ≡ 2) }
{
    let mut kb = with_activities(alloc, 2)?;
    feed_trace(&mut kb, &[1, 0]);
    Ok(kb)
}

/// The traces ab and c.
fn ab_and_c(alloc: Global) -> Result<Kb, Refusal>
    ensures events { IfOk result HasEachEvent }
    ensures activities { IfOk result (λ kb. activity_count kb ≡ 3) }
{
    let mut kb = with_activities(alloc, 3)?;
    feed_trace(&mut kb, &[0, 1]);
    feed_trace(&mut kb, &[2]);
    Ok(kb)
}

/// The traces ab, a and c.
fn ab_a_and_c(alloc: Global) -> Result<Kb, Refusal>
    ensures events { IfOk result HasEachEvent }
    ensures activities { IfOk result (λ kb. activity_count kb ≡ 3) }
{
    let mut kb = with_activities(alloc, 3)?;
    feed_trace(&mut kb, &[0, 1]);
    feed_trace(&mut kb, &[0]);
    feed_trace(&mut kb, &[2]);
    Ok(kb)
}

/// The support, the confidence and the interest of a constraint of the list, as numerators and denominators.
type Scores = [(u64, u64); 3];

fn has_scores(rt: &impl Abort, list: &[Scored], wanted: &[(Kind, u32, u32, Scores)]) {
    for (kind, first, second, scores) in wanted {
        let mut found = false;
        for scored in list {
            let c = scored.constraint;
            if c.kind == *kind && c.first == *first && c.second == *second {
                let (s, f, i) = (scored.support, scored.confidence, scored.interest);
                let are = [(s.num(), s.den()), (f.num(), f.den()), (i.num(), i.den())];
                assert_eq!(rt; are, *scores);
                found = true;
            }
        }
        assert!(rt; found);
    }
}

/// The same three scores.
const fn all(num: u64, den: u64) -> Scores {
    [(num, den); 3]
}

#[test]
fn scores_of_one_trace(rt: HostRuntime) -> Result<(), Fail> {
    let alloc = rt.alloc();
    let limit = Limits::standard().candidates;
    let list = candidates(alloc, &aab(alloc)?, &[0, 1], Repertoire::First, &ANY, limit)?;
    has_scores(
        &rt,
        &list,
        &[
            (Kind::Response, 0, 1, all(1, 1)),
            (Kind::AlternateResponse, 0, 1, all(1, 2)),
            (Kind::ChainResponse, 0, 1, all(1, 2)),
            (Kind::AlternatePrecedence, 0, 1, all(1, 1)),
            (Kind::AlternateSuccession, 0, 1, all(2, 3)),
        ],
    );
    let list = candidates(alloc, &aba(alloc)?, &[0, 1], Repertoire::First, &ANY, limit)?;
    has_scores(
        &rt,
        &list,
        &[
            (Kind::Precedence, 0, 1, all(1, 1)),
            (Kind::Response, 0, 1, all(1, 2)),
            (Kind::Succession, 0, 1, all(2, 3)),
            (Kind::NotSuccession, 1, 0, all(1, 3)),
        ],
    );
    let list = candidates(alloc, &ba(alloc)?, &[0, 1], Repertoire::First, &ANY, limit)?;
    has_scores(&rt, &list, &[(Kind::ChainPrecedence, 0, 1, all(0, 1))]);
    Ok(())
}

#[test]
fn scores_of_several_traces(rt: HostRuntime) -> Result<(), Fail> {
    let alloc = rt.alloc();
    let limit = Limits::standard().candidates;
    let list = candidates(
        alloc,
        &ab_and_c(alloc)?,
        &[0, 1, 2],
        Repertoire::First,
        &ANY,
        limit,
    )?;
    let apart = [(1, 1), (1, 1), (1, 2)];
    has_scores(&rt, &list, &[(Kind::NotCoExistence, 0, 2, apart)]);
    let list = candidates(
        alloc,
        &ab_a_and_c(alloc)?,
        &[0, 1, 2],
        Repertoire::First,
        &ANY,
        limit,
    )?;
    let half = [(1, 2), (1, 3), (1, 9)];
    has_scores(&rt, &list, &[(Kind::Response, 0, 1, half)]);
    Ok(())
}

#[test]
fn scores_of_the_second_repertoire(rt: HostRuntime) -> Result<(), Fail> {
    let alloc = rt.alloc();
    let limit = Limits::standard().candidates;
    let list = candidates(
        alloc,
        &aba(alloc)?,
        &[0, 1],
        Repertoire::Second,
        &ANY,
        limit,
    )?;
    has_scores(
        &rt,
        &list,
        &[
            (Kind::NotRespondedExistence, 0, 1, all(0, 1)),
            (Kind::NotResponse, 1, 0, all(0, 1)),
            (Kind::NotPrecedence, 1, 0, all(1, 2)),
            (Kind::NotSuccession, 1, 0, all(1, 3)),
            (Kind::NotChainResponse, 0, 1, all(1, 2)),
            (Kind::NotChainPrecedence, 0, 1, all(0, 1)),
            (Kind::Exactly { n: 2 }, 0, 0, all(1, 1)),
        ],
    );
    let list = candidates(
        alloc,
        &ab_a_and_c(alloc)?,
        &[0, 1, 2],
        Repertoire::Second,
        &ANY,
        limit,
    )?;
    has_scores(
        &rt,
        &list,
        &[
            (Kind::Exactly { n: 1 }, 0, 0, [(2, 3), (2, 3), (4, 9)]),
            (Kind::AtLeast { n: 2 }, 0, 0, all(0, 1)),
            (Kind::AtMost { n: 2 }, 0, 0, [(1, 1), (1, 1), (2, 3)]),
            (Kind::NotResponse, 0, 1, [(1, 2), (1, 3), (1, 9)]),
        ],
    );
    Ok(())
}

/// AtMost m is met for each m from 2 on; AtLeast 1 and AtMost 1 are no candidates.
#[test]
fn sure_of_the_second_repertoire(rt: HostRuntime) -> Result<(), Fail> {
    let alloc = rt.alloc();
    let list = candidates(
        alloc,
        &aa_twice(alloc)?,
        &[0],
        Repertoire::Second,
        &SURE,
        13,
    )?;
    let expected = [
        Kind::Init,
        Kind::End,
        Kind::Participation,
        Kind::Exactly { n: 2 },
        Kind::AtLeast { n: 2 },
        Kind::AtMost { n: 2 },
        Kind::AtMost { n: 3 },
        Kind::AtMost { n: 4 },
        Kind::AtMost { n: 5 },
        Kind::AtMost { n: 6 },
        Kind::AtMost { n: 7 },
        Kind::AtMost { n: 8 },
        Kind::AtMost { n: 9 },
    ];
    assert_eq!(rt; list.len(), expected.len());
    for (scored, kind) in list.iter().zip(expected) {
        assert_eq!(rt; scored.constraint.kind, kind);
    }
    Ok(())
}
