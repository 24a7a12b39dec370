ghost use Rattle.std.specs.Prelude.{◌≡◌, if◌then◌else◌, List, vec_len, ◌≤◌, ◌<◌, ◌+◌, ◌^◌, ◌==◌, ◌∷◌, [], ◌++◌, ℕ, All, IfOk, IfErr, OnOk, length, filter, map, take};
ghost use Rattle.std.specs.Cmp.Lexicographic.{slice_cmp};
ghost use Rattle.std.specs.List.{prefix_len, range_with_len};
ghost use Rattle.std.specs.List.Sorted.{IsPermutation, IsSortedBy};
ghost use Rattle.std.specs.Ordering.{nat_cmp, int_cmp, ordering_then};
ghost use Rattle.event_log.specs.Logs.{events_of};
ghost use Rattle.csv_log.specs.declared.kept.Kept.{Kept};
ghost use Rattle.csv_log.specs.Kept.{HaveTheEvents, is_earlier_case, is_less, is_of_case, kept_cmp, sorted_where, traces_by_case};
ghost use Rattle.csv_log.specs.Sorting.{stably_sorted};

use crate::kept::Kept;
use crate::keys::Keys;
use decl_base::{Limits, Refusal};
use event_log::Log;
use std::alloc::Global;
use std::cmp::Ordering;

/// The log of the events, a trace for each case, of which there are so many. Where they are `ordered`, the events of a
/// case ascend by what orders them, and else they stand as they came.
pub(crate) fn grouped_log(
    alloc: Global,
    events: &mut Vec<Kept>,
    keys: &Keys,
    ordered: bool,
    cases: u32,
    limits: &Limits,
) -> Result<Log, Refusal>
    requires few_cases { cases ≤ limits.now.traces }
    requires few_events { vec_len events.old ≤ limits.now.events }
    requires inside { All (λ kept. kept.case < cases) events.old.items }
    ensures traces { IfOk result (λ log. log.traces ≡ traces_by_case cases (sorted_where ordered keys.now events.old.items)) }
    ensures events { IfOk result (λ log. HaveTheEvents log.traces events.old.items) }
    ensures within { IfOk result (λ log. (log.trace_limit ≡ limits.now.traces) × (log.event_limit ≡ limits.now.events)) }
    ensures err { IfErr result (λ e. e ≡ Refusal.Memory) }
{
    sort_where_ordered(events, keys, ordered)?;
    sort_by_case(events)?;
    traces_of(alloc, events, cases, limits)
}

/// Puts the events in ascending order of what orders them, where they are `ordered`.
fn sort_where_ordered(events: &mut Vec<Kept>, keys: &Keys, ordered: bool) -> Result<(), Refusal>
    ensures sorted { OnOk result (events.new.items ≡ sorted_where ordered keys.now events.old.items) }
    ensures same { OnOk result (IsPermutation events.old.items events.new.items) }
    ensures err { IfErr result (λ e. e ≡ Refusal.Memory) }
{
    if !ordered {
        return Ok(());
    }
    sort_by_value(events, keys)
}

/// Puts the events in ascending order of what orders them. Those that tie keep their order.
fn sort_by_value(events: &mut Vec<Kept>, keys: &Keys) -> Result<(), Refusal>
    ensures sorted { OnOk result (events.new.items ≡ stably_sorted (is_less keys.now) events.old.items) }
    ensures same { IsPermutation events.old.items events.new.items }
    ensures err { IfErr result (λ e. e ≡ Refusal.Memory) }
{
    events.sort_by(|a, b| compare(keys, a, b))?;
    Ok(())
}

/// Which of two events stands first by what orders them.
fn compare(keys: &Keys, a: &Kept, b: &Kept) -> Ordering
    ensures { result ≡ kept_cmp keys.now a.now b.now }
{
    keys.text_at(a.place)
        .cmp(keys.text_at(b.place))
        .then(keys.number_at(a.place).cmp(&keys.number_at(b.place)))
}

/// Puts the events of one case behind those of the case before. Those of a case keep their order.
fn sort_by_case(events: &mut Vec<Kept>) -> Result<(), Refusal>
    ensures sorted { OnOk result (IsSortedBy is_earlier_case events.new.items) }
    ensures kept { OnOk result ((case : ℕ) → filter (is_of_case case) events.new.items ≡ filter (is_of_case case) events.old.items) }
    ensures same { IsPermutation events.old.items events.new.items }
    ensures err { IfErr result (λ e. e ≡ Refusal.Memory) }
{
    events.sort_by_key(|event| event.case)?;
    Ok(())
}

/// The log of the events, a trace for each case, of which there are so many. The events stand case by case.
fn traces_of(alloc: Global, events: &[Kept], cases: u32, limits: &Limits) -> Result<Log, Refusal>
    requires few_cases { cases ≤ limits.now.traces }
    requires few_events { length events.now ≤ limits.now.events }
    requires sorted { IsSortedBy is_earlier_case events.now }
    requires inside { All (λ kept. kept.case < cases) events.now }
    ensures traces { IfOk result (λ log. log.traces ≡ traces_by_case cases events.now) }
    ensures events { IfOk result (λ log. events_of log.traces ≡ map (λ kept. kept.activity) events.now) }
    ensures within { IfOk result (λ log. (log.trace_limit ≡ limits.now.traces) × (log.event_limit ≡ limits.now.events)) }
    ensures err { IfErr result (λ e. e ≡ Refusal.Memory) }
{
    let mut log = Log::new(alloc, limits.traces, limits.events);
    let mut rest = events;
    for case in 0..cases {
        let (trace, later) = rest.split_at(first_of_case(rest, case));
        push_trace(&mut log, trace)?;
        rest = later;
    }
    Ok(log)
}

/// How many of the first events are of this case.
fn first_of_case(events: &[Kept], case: u32) -> usize
    ensures count { result ≡ prefix_len (is_of_case case) events.now }
    ensures within { result ≤ length events.now }
{
    events.iter().take_while(|event| event.case == case).count()
}

/// Puts a trace of these events behind the others.
fn push_trace(log: &mut Log, events: &[Kept]) -> Result<(), Refusal>
    requires few_traces { length log.old.traces < log.old.trace_limit }
    requires few_events { length (events_of log.old.traces) + length events.now ≤ log.old.event_limit }
    ensures ok { OnOk result (log.new ≡ record log.old { traces = log.old.traces ++ map (λ kept. kept.activity) events.now ∷ [] }) }
    ensures err { IfErr result (λ e. e ≡ Refusal.Memory) }
{
    log.begin_trace()?;
    for event in events {
        log.push_event(event.activity)?;
    }
    Ok(())
}
