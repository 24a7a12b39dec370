ghost use Rattle.std.specs.Prelude.{◌≡◌, ◌≤◌, ◌<◌, ◌+◌, [], ◌∷◌, ◌++◌, length, map, All, Some, slice_get, slice_index, slice_index_or, IfOk, IfErr, OnOk, OnErr};
ghost use Rattle.event_log.specs.Logs.{events_of};
ghost use Rattle.event_log.specs.Log.{with_trace, with_event, cut_at, AscendsTo, BeginCause, PushCause};

use decl_base::Refusal;
use std::alloc::Global;
use std::marker::Model;

/// Traces of numbers, one behind the other.
#[derive(Drop)]
pub struct Log {
    alloc: Global,
    events: Vec<u32>,
    /// Where each trace begins among the events.
    starts: Vec<usize>,
    trace_limit: u64,
    event_limit: u64,
}

impl Model for Log {
    ghost use Rattle.std.specs.Prelude.{◌≤◌, vec_len};
    ghost use Rattle.event_log.specs.Log.{Traces, cut_at, AscendsTo, StartsAtZero};

    ghost Value = { Traces };

    ghost view = { λ l. record {
      traces = cut_at l.starts.items l.events.items;
      trace_limit = l.trace_limit;
      event_limit = l.event_limit;
    } };

    ghost invariant = { λ l. AscendsTo 0 l.starts.items (vec_len l.events) × StartsAtZero l.starts.items l.events.items
        × (vec_len l.starts ≤ l.trace_limit) × (vec_len l.events ≤ l.event_limit) };
}

impl Log {
    /// No trace. At most so many traces and events fit.
    pub fn new(alloc: Global, traces: u64, events: u64) -> Log
        ensures { result ≡ record { traces = []; trace_limit = traces; event_limit = events } }
    {
        Log {
            alloc,
            events: Vec::new(alloc),
            starts: Vec::new(alloc),
            trace_limit: traces,
            event_limit: events,
        }
    }

    /// Puts an empty trace at the end.
    pub fn begin_trace(&mut self) -> Result<(), Refusal>
        ensures ok { OnOk result (self.new ≡ with_trace self.old) }
        ensures within { OnOk result (length self.new.traces ≤ self.new.trace_limit) }
        ensures err { OnErr result (self.new ≡ self.old) }
        ensures cause { IfErr result (BeginCause self.old) }
    {
        if self.starts.len() as u64 >= self.trace_limit {
            return Err(Refusal::Traces {
                limit: self.trace_limit,
            });
        }
        self.starts.push(self.events.len())?;
        Ok(())
    }

    /// Puts an event at the end of the last trace.
    pub fn push_event(&mut self, id: u32) -> Result<(), Refusal>
        requires { 0 < length self.old.traces }
        ensures ok { OnOk result (self.new ≡ with_event self.old id) }
        ensures within { OnOk result (length (events_of self.new.traces) ≤ self.new.event_limit) }
        ensures err { OnErr result (self.new ≡ self.old) }
        ensures cause { IfErr result (PushCause self.old) }
    {
        if self.events.len() as u64 >= self.event_limit {
            return Err(Refusal::Events {
                limit: self.event_limit,
            });
        }
        self.events.push(id)?;
        Ok(())
    }

    /// Puts a whole trace at the end.
    pub fn push_trace(&mut self, trace: &[u32]) -> Result<(), Refusal>
        requires traces { length self.old.traces < self.old.trace_limit }
        requires events { length (events_of self.old.traces) + length trace.now ≤ self.old.event_limit }
        ensures ok { OnOk result (self.new ≡ record self.old { traces = self.old.traces ++ trace.now ∷ [] }) }
        ensures err { OnErr result (self.new ≡ self.old) }
        ensures cause { IfErr result (λ e. e ≡ Refusal.Memory) }
    {
        self.starts.reserve(1)?;
        let start = self.events.len();
        self.events.extend_from_slice(trace)?;
        self.starts.push(start)?;
        Ok(())
    }

    /// The number of traces.
    pub fn traces(&self) -> u64
        ensures { result ≡ length self.now.traces }
    {
        self.starts.len() as u64
    }

    /// The number of events of all traces.
    pub fn event_count(&self) -> u64
        ensures { result ≡ length (events_of self.now.traces) }
    {
        self.events.len() as u64
    }

    /// The trace at this place, counted from 0.
    pub fn trace(&self, place: u64) -> &[u32]
        requires { place < length self.now.traces }
        ensures { slice_get self.now.traces place ≡ Some result.now }
    {
        piece_at(&self.events, &self.starts, place as usize)
    }

    /// The log with each number replaced by its rank.
    pub fn ranked(&self, ranks: &[u32]) -> Result<Log, Refusal>
        requires { All (λ id. id < length ranks.now) (events_of self.now.traces) }
        ensures ok { IfOk result (λ log. log ≡ record self.now { traces = map (map (slice_index ranks.now)) self.now.traces }) }
        ensures err { IfErr result (λ e. e ≡ Refusal.Memory) }
    {
        let events = ranks_of(self.alloc, &self.events, ranks)?;
        Ok(Log {
            alloc: self.alloc,
            events,
            starts: Vec::from_slice(self.alloc, &self.starts)?,
            trace_limit: self.trace_limit,
            event_limit: self.event_limit,
        })
    }
}

/// The events from a place on, up to the next place or all.
fn piece_at<'a>(events: &'a [u32], starts: &[usize], place: usize) -> &'a [u32]
    requires inside { place < length starts.now }
    requires ascends { AscendsTo 0 starts.now (length events.now) }
    ensures { slice_get (cut_at starts.now events.now) place ≡ Some result.now }
{
    let start = starts[place];
    let end = end_of(starts, place, events.len());
    &events[start..end]
}

/// The place after this one, or the last.
fn end_of(starts: &[usize], place: usize, last: usize) -> usize
    requires { place < length starts.now }
    ensures { result ≡ slice_index_or starts.now (place + 1) last }
{
    if place + 1 < starts.len() {
        starts[place + 1]
    } else {
        last
    }
}

/// The rank of each event.
fn ranks_of(alloc: Global, events: &[u32], ranks: &[u32]) -> Result<Vec<u32>, Refusal>
    requires { All (λ id. id < length ranks.now) events.now }
    ensures ok { IfOk result (λ found. found.items ≡ map (slice_index ranks.now) events.now) }
    ensures err { IfErr result (λ e. e ≡ Refusal.Memory) }
{
    let mut found = Vec::with_capacity(alloc, events.len())?;
    for id in events {
        found.push(ranks[*id as usize])?;
    }
    Ok(found)
}
