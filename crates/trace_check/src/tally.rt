ghost use Rattle.std.specs.Prelude.{◌≡◌, ◌≢◌, ◌↔◌, ◌<◌, ◌+◌, ◌-◌, ◌^◌, ℕ, IsTrue, MatchOption, nat_eq, if◌then◌else◌, None, Some, length, slice_index};
ghost use Rattle.std.specs.List.{AllPairs};
ghost use Rattle.template_core.specs.Constraints.{arity, IsWellMade};
ghost use Rattle.template_core.specs.Events.{one_if};
ghost use Rattle.template_core.specs.Repertoire.{is_fulfilled};
ghost use Rattle.trace_check.specs.Sides.{IsJoined};
ghost use Rattle.trace_check.specs.Standing.{places_from};
ghost use Rattle.trace_check.specs.Tallies.{earliest, tally_of};

use crate::demand::demands_of;
use crate::side::side_by;
use template_core::{Constraint, Kind};

/// What one trace says of a constraint.
#[derive(Clone, Copy, Debug)]
pub struct Tally {
    /// Its activated places.
    pub activated: u64,
    /// Those that are fulfilled.
    pub fulfilled: u64,
    /// The first that isn't.
    pub broken: Option<u64>,
}

/// What a trace says of a constraint, by the places of the events of its activities. The trace's first event stands at `start`.
pub fn tally_of(
    constraint: &Constraint,
    trace: &[u32],
    start: u64,
    firsts: &[u64],
    seconds: &[u64],
) -> Tally
    requires made { IsWellMade constraint.now.kind constraint.now.first constraint.now.second }
    requires fits { start + length trace.now < 2 ^ 64 }
    requires firsts { firsts.now ≡ places_from constraint.now.first start trace.now }
    requires seconds { seconds.now ≡ places_from constraint.now.second start trace.now }
    ensures { result ≡ tally_of constraint.now.kind constraint.now.first constraint.now.second start trace.now }
{
    match whole_fulfils(constraint, trace, start, firsts) {
        Some(fulfilled) => of_whole(fulfilled, start + trace.len() as u64),
        None => of_events(constraint.kind, firsts, seconds),
    }
}

/// Whether the place of the whole trace is fulfilled, which activates a constraint of one activity. None where events activate it.
fn whole_fulfils(constraint: &Constraint, trace: &[u32], start: u64, firsts: &[u64]) -> Option<bool>
    requires fits { start + length trace.now < 2 ^ 64 }
    requires firsts { firsts.now ≡ places_from constraint.now.first start trace.now }
    ensures { MatchOption result (arity constraint.now.kind ≡ 2) (λ fulfilled. (arity constraint.now.kind ≡ 1)
        × (fulfilled ≡ is_fulfilled nat_eq constraint.now.kind constraint.now.first constraint.now.second trace.now (length trace.now))) }
{
    match constraint.kind {
        Kind::Init => Some(begins_at(firsts, start)),
        Kind::End => Some(ends_at(firsts, start + trace.len() as u64)),
        Kind::Participation => Some(!firsts.is_empty()),
        Kind::AtMostOne => Some(firsts.len() < 2),
        Kind::Exactly { n } => Some(firsts.len() == n as usize),
        Kind::AtLeast { n } => Some(n as usize <= firsts.len()),
        Kind::AtMost { n } => Some(firsts.len() <= n as usize),
        Kind::ChainSuccession
        | Kind::AlternateSuccession
        | Kind::Succession
        | Kind::CoExistence
        | Kind::ChainResponse
        | Kind::AlternateResponse
        | Kind::Response
        | Kind::ChainPrecedence
        | Kind::AlternatePrecedence
        | Kind::Precedence
        | Kind::RespondedExistence
        | Kind::NotCoExistence
        | Kind::NotSuccession
        | Kind::NotChainSuccession
        | Kind::NotRespondedExistence
        | Kind::NotResponse
        | Kind::NotPrecedence
        | Kind::NotChainResponse
        | Kind::NotChainPrecedence => None,
    }
}

/// Of a constraint that the place of the whole trace activates.
fn of_whole(keeps: bool, end: u64) -> Tally
    ensures { result ≡ record { activated = 1; fulfilled = one_if keeps; broken = if keeps then None else Some end } }
{
    Tally {
        activated: 1,
        fulfilled: if keeps { 1 } else { 0 },
        broken: if keeps { None } else { Some(end) },
    }
}

/// Whether the first place is this one.
fn begins_at(places: &[u64], start: u64) -> bool
    ensures { IsTrue result ↔ (0 < length places.now) × (slice_index places.now 0 ≡ start) }
{
    !places.is_empty() && places[0] == start
}

/// Whether the last place is directly before this one.
fn ends_at(places: &[u64], end: u64) -> bool
    requires { (k : ℕ) → k < length places.now → slice_index places.now k < end }
    ensures { IsTrue result ↔ (0 < length places.now) × (slice_index places.now (length places.now - 1) + 1 ≡ end) }
{
    !places.is_empty() && end - places[places.len() - 1] == 1
}

/// Of a constraint that events activate.
fn of_events(kind: Kind, firsts: &[u64], seconds: &[u64]) -> Tally
    requires firsts { AllPairs (λ x y. x < y) firsts.now }
    requires seconds { AllPairs (λ x y. x < y) seconds.now }
    requires apart { (i j : ℕ) → i < length firsts.now → j < length seconds.now → slice_index firsts.now i ≢ slice_index seconds.now j }
    ensures { IsJoined kind firsts.now seconds.now result }
{
    let demands = demands_of(kind);
    let first = side_by(demands.first, firsts, seconds);
    let second = side_by(demands.second, seconds, firsts);
    Tally {
        activated: first.activated + second.activated,
        fulfilled: first.fulfilled + second.fulfilled,
        broken: earliest(first.broken, second.broken),
    }
}

/// The lesser of two places, where they are there.
fn earliest(place: Option<u64>, other: Option<u64>) -> Option<u64>
    ensures { result ≡ earliest place other }
{
    match (place, other) {
        (None, other) => other,
        (Some(place), None) => Some(place),
        (Some(place), Some(other)) => Some(place.min(other)),
    }
}
