ghost use Rattle.std.specs.Prelude.{◌≡◌, ◌≢◌, ◌↔◌, ◌||◌, ◌&&◌, not, ◌∷◌, ◌++◌, IsTrue, length, nat_eq};
ghost use Rattle.template_core.specs.Constraints.{IsTemplate, IsWellMade};
ghost use Rattle.template_core.specs.Counters.{occurrences};
ghost use Rattle.template_core.specs.Events.{at_place, occurs, is_first, is_last, before_first, after_last};
ghost use Rattle.template_core.specs.Groups.{group_of};
ghost use Rattle.template_core.specs.Repertoire.{each, at_first, alternates_later, alternates_earlier, is_activated, is_fulfilled, Keeps};
ghost use Rattle.template_core.specs.Tests.{has, has_later, has_earlier, has_next, has_previous};
ghost use Rattle.template_core.specs.declared.group.Group.TheVariants.{Existence};

use crate::dispatch::with_template;
use template_core::{
    Activation, Constraint, Group, Kind, Template, group_of, keeps as keeps_template,
};

/// Whether a trace keeps a constraint, by its automaton.
pub fn keeps(constraint: &Constraint, trace: &[u32]) -> bool
    requires { IsWellMade constraint.now.kind constraint.now.first constraint.now.second }
    ensures { IsTrue result ↔ Keeps nat_eq constraint.now.kind constraint.now.first constraint.now.second trace.now }
{
    with_template!(constraint.kind, keeps_by(constraint, trace))
}

/// The constraint's kind is the template's.
fn keeps_by<T: Template>(constraint: &Constraint, trace: &[u32]) -> bool
    requires used { IsTemplate T.KIND }
    requires is { constraint.now.kind ≡ T.KIND }
    requires made { IsWellMade constraint.now.kind constraint.now.first constraint.now.second }
    ensures { IsTrue result ↔ Keeps nat_eq constraint.now.kind constraint.now.first constraint.now.second trace.now }
{
    keeps_template::<T>(constraint, trace)
}

/// Whether a place of a trace holds: it isn't activated, or it is fulfilled.
/// A trace of n events has the places 0 to n - 1, which are its events, and the place n, which stands for the whole trace.
pub fn place_holds(constraint: &Constraint, trace: &[u32], place: usize) -> bool
    ensures { result ≡ (not (is_activated nat_eq constraint.now.kind constraint.now.first constraint.now.second trace.now place)
        || is_fulfilled nat_eq constraint.now.kind constraint.now.first constraint.now.second trace.now place) }
{
    !place_activated(constraint, trace, place) || place_fulfilled(constraint, trace, place)
}

/// Whether a place of a trace is activated.
pub fn place_activated(constraint: &Constraint, trace: &[u32], place: usize) -> bool
    ensures { result ≡ is_activated nat_eq constraint.now.kind constraint.now.first constraint.now.second trace.now place }
{
    match group_of(constraint.kind) {
        Group::Existence => place == trace.len(),
        Group::Relation(Activation::First) => event_is(constraint.first, trace, place),
        Group::Relation(Activation::Second) => event_is(constraint.second, trace, place),
        Group::Mutual | Group::Negative => event_is(constraint.first, trace, place)
            || event_is(constraint.second, trace, place),
    }
}

/// Whether the place is an event, and it is the activity.
fn event_is(activity: u32, trace: &[u32], place: usize) -> bool
    ensures { result ≡ at_place (each nat_eq activity) trace.now place }
{
    place < trace.len() && trace[place] == activity
}

/// Whether a place is fulfilled: by the whole trace, or by the event there and those around it.
fn place_fulfilled(constraint: &Constraint, trace: &[u32], place: usize) -> bool
    ensures { result ≡ is_fulfilled nat_eq constraint.now.kind constraint.now.first constraint.now.second trace.now place }
{
    match constraint.kind {
        Kind::Init => begins_with(constraint.first, trace),
        Kind::End => ends_with(constraint.first, trace),
        Kind::Participation => occurs(constraint.first, trace),
        Kind::AtMostOne => occurrences(constraint.first, trace) < 2,
        Kind::Exactly { n } => occurrences(constraint.first, trace) == n as usize,
        Kind::AtLeast { n } => occurrences(constraint.first, trace) >= n as usize,
        Kind::AtMost { n } => occurrences(constraint.first, trace) <= n as usize,
        Kind::ChainSuccession
        | Kind::AlternateSuccession
        | Kind::Succession
        | Kind::CoExistence
        | Kind::ChainResponse
        | Kind::AlternateResponse
        | Kind::Response
        | Kind::ChainPrecedence
        | Kind::AlternatePrecedence
        | Kind::Precedence
        | Kind::RespondedExistence
        | Kind::NotCoExistence
        | Kind::NotSuccession
        | Kind::NotChainSuccession
        | Kind::NotRespondedExistence
        | Kind::NotResponse
        | Kind::NotPrecedence
        | Kind::NotChainResponse
        | Kind::NotChainPrecedence => place < trace.len()
            && event_fulfilled(
                constraint,
                &trace[..place],
                trace[place],
                &trace[place + 1..],
            ),
    }
}

/// Whether an event of a trace is fulfilled, by those before it and after it.
fn event_fulfilled(constraint: &Constraint, before: &[u32], event: u32, after: &[u32]) -> bool
    requires { group_of constraint.now.kind ≢ Existence }
    ensures { result ≡ is_fulfilled nat_eq constraint.now.kind constraint.now.first constraint.now.second (before.now ++ event ∷ after.now)
        (length before.now) }
{
    let first = constraint.first;
    let second = constraint.second;
    match constraint.kind {
        Kind::ChainSuccession => chain_succession(constraint, before, event, after),
        Kind::AlternateSuccession => alternate_succession(constraint, before, event, after),
        Kind::Succession => succession(constraint, before, event, after),
        Kind::CoExistence => co_existence(constraint, before, event, after),
        Kind::ChainResponse => begins_with(second, after),
        Kind::AlternateResponse => alternates_later(first, second, after),
        Kind::Response => occurs(second, after),
        Kind::ChainPrecedence => ends_with(first, before),
        Kind::AlternatePrecedence => alternates_earlier(first, second, before),
        Kind::Precedence => occurs(first, before),
        Kind::RespondedExistence => has(second, before, event, after),
        Kind::NotCoExistence => !co_existence(constraint, before, event, after),
        Kind::NotSuccession => !succession(constraint, before, event, after),
        Kind::NotChainSuccession => !chain_succession(constraint, before, event, after),
        Kind::NotRespondedExistence => !has(second, before, event, after),
        Kind::NotResponse => !occurs(second, after),
        Kind::NotPrecedence => !occurs(first, before),
        Kind::NotChainResponse => !begins_with(second, after),
        Kind::NotChainPrecedence => !ends_with(first, before),
        Kind::Init
        | Kind::End
        | Kind::Participation
        | Kind::AtMostOne
        | Kind::Exactly { .. }
        | Kind::AtLeast { .. }
        | Kind::AtMost { .. } => false,
    }
}

/// At its first activity the second comes next, and at another event the first came directly before.
fn chain_succession(constraint: &Constraint, before: &[u32], event: u32, after: &[u32]) -> bool
    ensures { result ≡ at_first nat_eq constraint.now.first (has_next nat_eq constraint.now.second)
        (has_previous nat_eq constraint.now.first) before.now event after.now }
{
    if event == constraint.first {
        begins_with(constraint.second, after)
    } else {
        ends_with(constraint.first, before)
    }
}

/// At its first activity the second comes later, before another first, and at another event the first came earlier, after any other second.
fn alternate_succession(constraint: &Constraint, before: &[u32], event: u32, after: &[u32]) -> bool
    ensures { result ≡ at_first nat_eq constraint.now.first (alternates_later nat_eq constraint.now.first constraint.now.second)
        (alternates_earlier nat_eq constraint.now.first constraint.now.second) before.now event after.now }
{
    if event == constraint.first {
        alternates_later(constraint.first, constraint.second, after)
    } else {
        alternates_earlier(constraint.first, constraint.second, before)
    }
}

/// At its first activity the second comes later, and at another event the first came earlier.
fn succession(constraint: &Constraint, before: &[u32], event: u32, after: &[u32]) -> bool
    ensures { result ≡ at_first nat_eq constraint.now.first (has_later nat_eq constraint.now.second)
        (has_earlier nat_eq constraint.now.first) before.now event after.now }
{
    if event == constraint.first {
        occurs(constraint.second, after)
    } else {
        occurs(constraint.first, before)
    }
}

/// At its first activity the trace has the second, and at another event the first.
fn co_existence(constraint: &Constraint, before: &[u32], event: u32, after: &[u32]) -> bool
    ensures { result ≡ at_first nat_eq constraint.now.first (has nat_eq constraint.now.second) (has nat_eq constraint.now.first) before.now event after.now }
{
    if event == constraint.first {
        has(constraint.second, before, event, after)
    } else {
        has(constraint.first, before, event, after)
    }
}

/// Whether some event of a trace is the activity, by one event and those before it and after it.
fn has(activity: u32, before: &[u32], event: u32, after: &[u32]) -> bool
    ensures { result ≡ has nat_eq activity before.now event after.now }
{
    occurs(activity, before) || event == activity || occurs(activity, after)
}

/// Whether some event is the activity.
fn occurs(activity: u32, events: &[u32]) -> bool
    ensures { result ≡ occurs nat_eq activity events.now }
{
    events.iter().any(|event| *event == activity)
}

/// How many events are the activity.
fn occurrences(activity: u32, events: &[u32]) -> usize
    ensures { result ≡ occurrences nat_eq activity events.now }
{
    let mut count = 0;
    for event in events {
        if *event == activity {
            count += 1;
        }
    }
    count
}

/// Whether the first event is the activity.
fn begins_with(activity: u32, events: &[u32]) -> bool
    ensures { result ≡ is_first nat_eq activity events.now }
{
    match events.first() {
        Some(event) => *event == activity,
        None => false,
    }
}

/// Whether the last event is the activity.
fn ends_with(activity: u32, events: &[u32]) -> bool
    ensures { result ≡ is_last nat_eq activity events.now }
{
    match events.last() {
        Some(event) => *event == activity,
        None => false,
    }
}

/// Whether the second occurs in the events after one, and the first does not before the nearest of them.
fn alternates_later(first: u32, second: u32, after: &[u32]) -> bool
    ensures { result ≡ (occurs nat_eq second after.now && not (occurs nat_eq first (before_first nat_eq second after.now))) }
{
    for event in after {
        if *event == second {
            return true;
        }
        if *event == first {
            return false;
        }
    }
    false
}

/// Whether the first occurs in the events before one, and the second does not after the nearest of them.
fn alternates_earlier(first: u32, second: u32, before: &[u32]) -> bool
    ensures { result ≡ (occurs nat_eq first before.now && not (occurs nat_eq second (after_last nat_eq first before.now))) }
{
    let mut alternates = false;
    for event in before {
        if *event == first {
            alternates = true;
        } else if *event == second {
            alternates = false;
        }
    }
    alternates
}
