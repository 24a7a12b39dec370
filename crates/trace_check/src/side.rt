ghost use Rattle.std.specs.Prelude.{◌≡◌, ◌≢◌, ◌↔◌, ◌<◌, ◌≤◌, ◌+◌, ◌-◌, ℕ, Bool, IsTrue, length, count_by, slice_index};
ghost use Rattle.std.specs.List.{AllPairs};
ghost use Rattle.trace_check.specs.Demands.{IsTest};
ghost use Rattle.trace_check.specs.Sides.{IsSide};
ghost use Rattle.trace_check.specs.Standing.{IsFirstFailing};

use crate::demand::Demand;

/// What the events of one activity say of a trace.
#[derive(Clone, Copy, Debug)]
pub struct Side {
    /// How many events activate the constraint.
    pub activated: u64,
    /// How many of them have what they ask for.
    pub fulfilled: u64,
    /// The first that hasn't.
    pub broken: Option<u64>,
}

/// The same where no event of the activity may activate the constraint.
pub fn side_by(demand: Option<Demand>, own: &[u64], other: &[u64]) -> Side
    requires ascends { AllPairs (λ x y. x < y) own.now }
    requires apart { (i j : ℕ) → i < length own.now → j < length other.now → slice_index own.now i ≢ slice_index other.now j }
    ensures is { IsSide demand own.now other.now result }
    ensures within { (result.activated ≤ length own.now) × (result.fulfilled ≤ length own.now) }
{
    match demand {
        Some(demand) => side_of(demand, own, other),
        None => Side {
            activated: 0,
            fulfilled: 0,
            broken: None,
        },
    }
}

/// The places `own` and `other` of two activities of a trace ascend.
pub fn side_of(demand: Demand, own: &[u64], other: &[u64]) -> Side
    requires ascends { AllPairs (λ x y. x < y) own.now }
    requires apart { (i j : ℕ) → i < length own.now → j < length other.now → slice_index own.now i ≢ slice_index other.now j }
    ensures activated { result.activated ≡ length own.now }
    ensures fulfilled { (test : ℕ → Bool) → IsTest demand own.now other.now test → result.fulfilled ≡ count_by test own.now }
    ensures broken { (test : ℕ → Bool) → IsTest demand own.now other.now test → IsFirstFailing test own.now (length own.now) result.broken }
    ensures within { result.fulfilled ≤ length own.now }
{
    let mut side = Side {
        activated: own.len() as u64,
        fulfilled: 0,
        broken: None,
    };
    let mut passed = 0;
    for i in 0..own.len() {
        passed = places_before(other, passed, own[i]);
        if has_demanded(demand, own, other, i, passed) {
            side.fulfilled += 1;
        } else if side.broken.is_none() {
            side.broken = Some(own[i]);
        }
    }
    side
}

/// How many of the places, from the first one not below a place on, lie before it.
pub fn places_before(places: &[u64], from: usize, place: u64) -> usize
    requires { from ≤ length places.now }
    ensures least { from ≤ result }
    ensures most { result ≤ length places.now }
    ensures before { from < result → slice_index places.now (result - 1) < place }
    ensures behind { result < length places.now → place ≤ slice_index places.now result }
{
    let mut count = from;
    while count < places.len() && places[count] < place {
        count += 1;
    }
    count
}

/// Whether an event has what it asks for: number i of its own activity, with so many of the other activity before it.
fn has_demanded(demand: Demand, own: &[u64], other: &[u64], i: usize, passed: usize) -> bool
    requires there { i < length own.now }
    requires most { passed ≤ length other.now }
    requires before { 0 < passed → slice_index other.now (passed - 1) < slice_index own.now i }
    requires behind { passed < length other.now → slice_index own.now i < slice_index other.now passed }
    ensures { (test : ℕ → Bool) → IsTest demand own.now other.now test → result ≡ test (slice_index own.now i) }
{
    match demand {
        Demand::Present => !other.is_empty(),
        Demand::Later => passed < other.len(),
        Demand::Earlier => passed > 0,
        Demand::Next => is_next(own, other, i, passed),
        Demand::Previous => is_previous(own, other, i, passed),
        Demand::AlternatesLater => alternates_later(own, other, i, passed),
        Demand::AlternatesEarlier => alternates_earlier(own, other, i, passed),
        Demand::Absent => other.is_empty(),
        Demand::NoneLater => !(passed < other.len()),
        Demand::NoneEarlier => !(passed > 0),
        Demand::NotNext => !is_next(own, other, i, passed),
        Demand::NotPrevious => !is_previous(own, other, i, passed),
    }
}

/// Whether the other activity's next event follows directly.
fn is_next(own: &[u64], other: &[u64], i: usize, passed: usize) -> bool
    requires there { i < length own.now }
    requires behind { passed < length other.now → slice_index own.now i < slice_index other.now passed }
    ensures { IsTrue result ↔ (passed < length other.now) × (slice_index other.now passed ≡ slice_index own.now i + 1) }
{
    passed < other.len() && other[passed] - own[i] == 1
}

/// Whether the other activity's last event stands directly before.
fn is_previous(own: &[u64], other: &[u64], i: usize, passed: usize) -> bool
    requires there { i < length own.now }
    requires most { passed ≤ length other.now }
    requires before { 0 < passed → slice_index other.now (passed - 1) < slice_index own.now i }
    ensures { IsTrue result ↔ (0 < passed) × (slice_index other.now (passed - 1) + 1 ≡ slice_index own.now i) }
{
    passed > 0 && own[i] - other[passed - 1] == 1
}

/// Whether the other activity has an event behind this one, before the next one of its own activity.
fn alternates_later(own: &[u64], other: &[u64], i: usize, passed: usize) -> bool
    requires { i < length own.now }
    ensures { IsTrue result ↔ (passed < length other.now) × (i + 1 < length own.now → slice_index other.now passed < slice_index own.now (i + 1)) }
{
    passed < other.len() && (i + 1 == own.len() || other[passed] < own[i + 1])
}

/// Whether the other activity has an event before this one, behind the last one of its own activity.
fn alternates_earlier(own: &[u64], other: &[u64], i: usize, passed: usize) -> bool
    requires there { i < length own.now }
    requires most { passed ≤ length other.now }
    ensures { IsTrue result ↔ (0 < passed) × (0 < i → slice_index own.now (i - 1) < slice_index other.now (passed - 1)) }
{
    passed > 0 && (i == 0 || own[i - 1] < other[passed - 1])
}
