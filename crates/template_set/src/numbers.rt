ghost use Rattle.std.specs.Prelude.{◌≡◌, ℕ, List, nat_eq};
ghost use Rattle.template_core.specs.Constraints.{arity, IsTemplate, IsWellMade};
ghost use Rattle.template_core.specs.Counts.{counts_of, traces_of, targets_of, AreCounts};
ghost use Rattle.template_core.specs.Repertoire.{activated, fulfilled};
ghost use Rattle.template_set.specs.Numbers.{numbers_of};

use crate::dispatch::with_template;
use template_core::{Activation, Counts, Group, Kind, Template, group_of};

/// A constraint's numbers of a log.
#[derive(Clone, Copy, Debug, PartialEq, Eq)]
pub struct Numbers {
    /// Activated places.
    pub activated: u64,
    /// Activated and fulfilled places.
    pub fulfilled: u64,
    /// The traces that count for confidence.
    pub traces: u64,
    /// The traces that count for interest too.
    pub target: u64,
}

/// The numbers of a log, from its counters.
pub fn counts_of(kind: Kind, counts: &Counts) -> Numbers
    requires { AreCounts kind counts.now }
    ensures { (a b : ℕ) (log : List (List ℕ)) → IsWellMade kind a b → counts.now ≡ counts_of kind a b log
        → result ≡ numbers_of kind a b log }
{
    let places = with_template!(kind, places_by(kind, counts));
    let with = traces_of(kind, counts);
    Numbers {
        activated: places.activated,
        fulfilled: places.fulfilled,
        traces: with.traces,
        target: with.target,
    }
}

#[derive(Clone, Copy)]
struct Places {
    activated: u64,
    fulfilled: u64,
}

/// The kind is the template's.
fn places_by<T: Template>(kind: Kind, counts: &Counts) -> Places
    requires used { IsTemplate T.KIND }
    requires is { kind ≡ T.KIND }
    requires counts { AreCounts kind counts.now }
    ensures activated { (a b : ℕ) (log : List (List ℕ)) → IsWellMade kind a b → counts.now ≡ counts_of kind a b log
        → result.activated ≡ activated nat_eq kind a b log }
    ensures fulfilled { (a b : ℕ) (log : List (List ℕ)) → IsWellMade kind a b → counts.now ≡ counts_of kind a b log
        → result.fulfilled ≡ fulfilled nat_eq kind a b log }
{
    Places {
        activated: T::activations(counts),
        fulfilled: T::fulfilled(counts),
    }
}

#[derive(Clone, Copy)]
struct Traces {
    traces: u64,
    target: u64,
}

/// By the group of the template.
fn traces_of(kind: Kind, counts: &Counts) -> Traces
    requires { AreCounts kind counts.now }
    ensures traces { (a b : ℕ) (log : List (List ℕ)) → IsWellMade kind a b → counts.now ≡ counts_of kind a b log
        → result.traces ≡ traces_of nat_eq kind a b log }
    ensures target { (a b : ℕ) (log : List (List ℕ)) → IsWellMade kind a b → counts.now ≡ counts_of kind a b log
        → result.target ≡ targets_of nat_eq kind a b log }
{
    let first = counts.first.traces;
    let second = counts.second.traces;
    match group_of(kind) {
        Group::Existence => Traces {
            traces: counts.traces,
            target: first,
        },
        Group::Relation(Activation::First) => Traces {
            traces: first,
            target: second,
        },
        Group::Relation(Activation::Second) => Traces {
            traces: second,
            target: first,
        },
        Group::Mutual | Group::Negative => Traces {
            traces: first + second - counts.onward.together,
            target: first.min(second),
        },
    }
}

/// The number of a template's activities.
pub fn arity(kind: Kind) -> u8
    requires { IsTemplate kind }
    ensures { result ≡ arity kind }
{
    with_template!(kind, arity_by(kind))
}

/// The kind is the template's.
fn arity_by<T: Template>(kind: Kind) -> u8
    requires used { IsTemplate T.KIND }
    requires is { kind ≡ T.KIND }
    ensures { result ≡ arity kind }
{
    T::ARITY
}
