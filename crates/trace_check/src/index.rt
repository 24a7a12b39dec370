ghost use Rattle.std.specs.Prelude.{◌≡◌, ◌<◌, ◌+◌, ◌^◌, [], map, length, IfOk, IfErr, OnOk};
ghost use Rattle.event_log.specs.Logs.{events_of, place_of};
ghost use Rattle.trace_check.specs.Index.{lists, AddsPlaces, IsIndex};

use decl_base::Refusal;
use event_log::{Alphabet, Log};
use std::alloc::Global;

/// For each name of a log its number among other names, or how many those are where it isn't one of them.
pub fn numbers_of(
    alloc: Global,
    names: &Alphabet,
    log_names: &Alphabet,
) -> Result<Vec<u32>, Refusal>
    ensures ok { IfOk result (λ numbers. numbers.items ≡ map (place_of names.now.names) log_names.now.names) }
    ensures err { IfErr result (λ e. e ≡ Refusal.Memory) }
{
    let mut numbers = Vec::with_capacity(alloc, log_names.len() as usize)?;
    for id in 0..log_names.len() {
        numbers.push(number_in(names, log_names.name(id)))?;
    }
    Ok(numbers)
}

/// The number of a name, or how many names there are where it isn't one of them.
fn number_in(names: &Alphabet, name: &str) -> u32
    ensures { result ≡ place_of names.now.names name.now }
{
    match names.find(name) {
        Some(id) => id,
        None => names.len(),
    }
}

/// For each activity below a number, where its events stand among all events of a log.
pub fn places_of(alloc: Global, count: u32, log: &Log) -> Result<Vec<Vec<u64>>, Refusal>
    ensures ok { IfOk result (λ index. IsIndex count (events_of log.now.traces) (lists index.items)) }
    ensures err { IfErr result (λ e. e ≡ Refusal.Memory) }
{
    let mut index = no_places(alloc, count)?;
    let mut start = 0;
    let _all = log.event_count();
    for number in 0..log.traces() {
        let trace = log.trace(number);
        add_places(&mut index, trace, start)?;
        start += trace.len() as u64;
    }
    Ok(index)
}

/// For each activity no place.
fn no_places(alloc: Global, count: u32) -> Result<Vec<Vec<u64>>, Refusal>
    ensures ok { IfOk result (λ index. IsIndex count [] (lists index.items)) }
    ensures err { IfErr result (λ e. e ≡ Refusal.Memory) }
{
    let mut index = Vec::with_capacity(alloc, count as usize)?;
    for _ in 0..count {
        index.push(Vec::new(alloc))?;
    }
    Ok(index)
}

/// Puts the places of a trace's events behind those that are there. The first event stands at `start`.
fn add_places(index: &mut Vec<Vec<u64>>, trace: &[u32], start: u64) -> Result<(), Refusal>
    requires { start + length trace.now < 2 ^ 64 }
    ensures ok { OnOk result (AddsPlaces start trace.now (lists index.old.items) (lists index.new.items)) }
    ensures err { IfErr result (λ e. e ≡ Refusal.Memory) }
{
    for i in 0..trace.len() {
        let activity = trace[i] as usize;
        if activity < index.len() {
            index[activity].push(start + i as u64)?;
        }
    }
    Ok(())
}
