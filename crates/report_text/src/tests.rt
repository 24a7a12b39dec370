ghost use Rattle.template_core.specs.Constraints.{IsWellMade, IsWellMadeFor};

use crate::model::listed_table;
use crate::{compared_text, scores_table, summary_text};
use decl_base::{Frac, Trace};
use event_log::Alphabet;
use model_compare::compare;
use reduce_model::{Decision, reduce};
use scoring::Scored;
use std::test::Fail;
use template_core::{Constraint, Kind};

fn of_one(kind: Kind) -> Constraint
    requires { IsWellMade kind 0 0 }
    ensures { IsWellMadeFor 1 result }
{
    Constraint {
        kind,
        first: 0,
        second: 0,
    }
}

fn always_kept(kind: Kind) -> Scored
    requires { IsWellMade kind 0 0 }
    ensures { IsWellMadeFor 1 result.constraint }
{
    let whole = Frac::new(1, 1);
    Scored {
        constraint: of_one(kind),
        support: whole,
        confidence: whole,
        interest: whole,
    }
}

/// The constraints that are listed for the log of one trace of one event, the second of them untested.
#[test]
fn listed_constraints(rt: HostRuntime) -> Result<(), Fail> {
    let mut names = Alphabet::new(rt.alloc(), 1_000);
    names.add("a")?;
    let list = [always_kept(Kind::Init), always_kept(Kind::AtMostOne)];
    let decisions = [Decision::Kept, Decision::Untested];
    let witnesses = [Trace::of(rt.alloc(), &[])?];
    let text = listed_table(rt.alloc(), &names, &list, &decisions, &witnesses)?;
    let expected =
        "     support   confidence     interest constraint\n         1/1          1/1          1/1 Init(\"a\") []\n         1/1          1/1          1/1 AtMostOne(\"a\") -\n";
    assert_eq!(rt; text.as_slice(), expected.as_bytes());
    let text = scores_table(rt.alloc(), &names, &list)?;
    let expected =
        "     support   confidence     interest constraint\n         1/1          1/1          1/1 Init(\"a\")\n         1/1          1/1          1/1 AtMostOne(\"a\")\n";
    assert_eq!(rt; text.as_slice(), expected.as_bytes());
    Ok(())
}

/// The summary of the log of one trace of one event.
#[test]
fn counted_outcomes(rt: HostRuntime) -> Result<(), Fail> {
    let list = [
        of_one(Kind::Init),
        of_one(Kind::End),
        of_one(Kind::Participation),
        of_one(Kind::AtMostOne),
    ];
    let reduced = reduce(rt.alloc(), &list, 1, 100)?;
    let text = summary_text(rt.alloc(), 7, 1, 1, 1, &reduced)?;
    let expected =
        "seed 7\ntraces 1\nevents 1\ntasks 1\ncandidates 4\nlisted 2\nconflict 0\nweaker 1\nfirst-pass 1\nsecond-pass 0\n";
    assert_eq!(rt; text.as_slice(), expected.as_bytes());
    Ok(())
}

// A constraint of two activities, beside one name more.
fn of_two(kind: Kind) -> Constraint
    requires { IsWellMade kind 0 1 }
    ensures { IsWellMadeFor 3 result }
{
    Constraint {
        kind,
        first: 0,
        second: 1,
    }
}

/// Two models over two names compared, of which the first asks for more.
#[test]
fn compared_models(rt: HostRuntime) -> Result<(), Fail> {
    let mut names = Alphabet::new(rt.alloc(), 1_000);
    names.add("a")?;
    names.add("b")?;
    let chain = [of_two(Kind::ChainResponse)];
    let alternate = [of_two(Kind::AlternateResponse)];
    let compared = compare(rt.alloc(), &chain, &alternate, 3, 100)?;
    let text = compared_text(rt.alloc(), &names, &compared)?;
    let expected = "stronger\nonly first -\nonly second [\"a\",null,\"b\"]\n";
    assert_eq!(rt; text.as_slice(), expected.as_bytes());
    Ok(())
}
