ghost use Rattle.std.specs.Prelude.{◌≡◌, ◌≤◌, ◌<◌, ◌+◌, ◌^◌, All, map, length, IfOk, IfErr, IfSome, nat_eq};
ghost use Rattle.event_log.specs.Logs.{events_of};
ghost use Rattle.template_core.specs.Constraints.{IsWellMade, IsWellMadeFor};
ghost use Rattle.trace_check.specs.Checking.{row, numbered_row};
ghost use Rattle.trace_check.specs.Index.{lists, IsIndex};
ghost use Rattle.trace_check.specs.Standing.{places_from};
ghost use Rattle.trace_check.specs.Tallies.{with_tally};

use crate::side::places_before;
use crate::tally::{Tally, tally_of};
use crate::{Broken, Checked};
use decl_base::Refusal;
use event_log::Log;
use std::alloc::Global;
use template_core::Constraint;

/// How the traces of a log keep each constraint of a list, by the places of all activities' events among all events of the log.
pub fn rows_of(
    alloc: Global,
    list: &[Constraint],
    log: &Log,
    index: &[Vec<u64>],
) -> Result<Vec<Checked>, Refusal>
    requires made { All (IsWellMadeFor (length index.now)) list.now }
    requires index { IsIndex (length index.now) (events_of log.now.traces) (lists index.now) }
    ensures ok { IfOk result (λ rows. rows.items ≡ map (numbered_row log.now.traces) list.now) }
    ensures err { IfErr result (λ e. e ≡ Refusal.Memory) }
{
    let mut rows = Vec::with_capacity(alloc, list.len())?;
    for k in 0..list.len() {
        let constraint = &list[k];
        let firsts = &index[constraint.first as usize];
        let seconds = &index[constraint.second as usize];
        rows.push(row_of(constraint, log, firsts, seconds))?;
    }
    Ok(rows)
}

/// How the traces of a log keep a constraint, by the places of its activities' events among all events of the log.
fn row_of(constraint: &Constraint, log: &Log, firsts: &[u64], seconds: &[u64]) -> Checked
    requires made { IsWellMade constraint.now.kind constraint.now.first constraint.now.second }
    requires firsts { firsts.now ≡ places_from constraint.now.first 0 (events_of log.now.traces) }
    requires seconds { seconds.now ≡ places_from constraint.now.second 0 (events_of log.now.traces) }
    ensures { result ≡ row nat_eq constraint.now.kind constraint.now.first constraint.now.second log.now.traces }
{
    let mut row = Checked {
        activated: 0,
        fulfilled: 0,
        kept: 0,
        broken: None,
    };
    let mut start = 0;
    let mut first = 0;
    let mut second = 0;
    let _all = log.event_count();
    for number in 0..log.traces() {
        let trace = log.trace(number);
        let end = start + trace.len() as u64;
        let first_end = places_before(firsts, first, end);
        let second_end = places_before(seconds, second, end);
        let tally = tally_of(
            constraint,
            trace,
            start,
            &firsts[first..first_end],
            &seconds[second..second_end],
        );
        row = with_tally(&row, &tally, number + 1, start);
        start = end;
        first = first_end;
        second = second_end;
    }
    row
}

/// A row with what one more trace says.
fn with_tally(row: &Checked, tally: &Tally, number: u64, start: u64) -> Checked
    requires activated { row.now.activated + tally.now.activated < 2 ^ 64 }
    requires fulfilled { row.now.fulfilled + tally.now.fulfilled < 2 ^ 64 }
    requires kept { row.now.kept + 1 < 2 ^ 64 }
    requires broken { IfSome tally.now.broken (λ place. start ≤ place) }
    ensures { result ≡ with_tally number start tally.now row.now }
{
    let (kept, broken) = match tally.broken {
        None => (1, None),
        Some(place) => (
            0,
            Some(Broken {
                trace: number,
                place: place - start,
            }),
        ),
    };
    Checked {
        activated: row.activated + tally.activated,
        fulfilled: row.fulfilled + tally.fulfilled,
        kept: row.kept + kept,
        broken: row.broken.or(broken),
    }
}
