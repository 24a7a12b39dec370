ghost use Rattle.std.specs.Prelude.{◌≡◌, ◌++◌, IfOk, IfErr, OnOk};
ghost use Rattle.report_text.specs.Summary.{outcome, count_with, number_line, outcome_line, summary_of};

use crate::fields::put_number;
use decl_base::Refusal;
use reduce_model::{Decision, Reduced};
use std::alloc::{AllocError, Global};

/// The summary of a mined sample: its seed, how many traces, events and names it has, how many candidates, and how
/// many of these have each outcome.
pub fn summary_text(
    alloc: Global,
    seed: u64,
    traces: u64,
    events: u64,
    tasks: u64,
    reduced: &Reduced,
) -> Result<Vec<u8>, Refusal>
    ensures ok { IfOk result (λ text. text.items ≡ summary_of seed traces events tasks reduced.now.decisions) }
    ensures err { IfErr result (λ e. e ≡ Refusal.Memory) }
{
    let decisions = reduced.decisions();
    let mut out = Vec::new(alloc);
    put_line(&mut out, "seed", seed)?;
    put_line(&mut out, "traces", traces)?;
    put_line(&mut out, "events", events)?;
    put_line(&mut out, "tasks", tasks)?;
    put_line(&mut out, "candidates", decisions.len() as u64)?;
    put_outcome(&mut out, decisions, "listed")?;
    put_outcome(&mut out, decisions, "conflict")?;
    put_outcome(&mut out, decisions, "weaker")?;
    put_outcome(&mut out, decisions, "first-pass")?;
    put_outcome(&mut out, decisions, "second-pass")?;
    Ok(out)
}

/// The line of the candidates with an outcome.
fn put_outcome(out: &mut Vec<u8>, decisions: &[Decision], word: &str) -> Result<(), AllocError>
    ensures { OnOk result (out.new.items ≡ out.old.items ++ outcome_line decisions.now word.now) }
{
    put_line(out, word, count_with(decisions, word))
}

/// How many candidates have an outcome.
fn count_with(decisions: &[Decision], word: &str) -> u64
    ensures { result ≡ count_with word.now decisions.now }
{
    decisions
        .iter()
        .filter(|decision| outcome(**decision) == word)
        .count() as u64
}

/// The word for what becomes of a candidate.
fn outcome(decision: Decision) -> &'static str
    ensures { result.now ≡ outcome decision }
{
    match decision {
        Decision::Kept => "listed",
        Decision::Conflict => "conflict",
        Decision::Weaker { .. } => "weaker",
        Decision::FirstPass => "first-pass",
        Decision::SecondPass => "second-pass",
        Decision::Beyond => "beyond",
        Decision::Untested => "untested",
    }
}

/// A word, a space, a number and the end of the line.
fn put_line(out: &mut Vec<u8>, word: &str, number: u64) -> Result<(), AllocError>
    ensures { OnOk result (out.new.items ≡ out.old.items ++ number_line word.now number) }
{
    out.extend_from_slice(word.as_bytes())?;
    out.push(b' ')?;
    put_number(out, number)?;
    out.push(b'\n')?;
    Ok(())
}
