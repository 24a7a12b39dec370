ghost use Rattle.std.specs.Prelude.{◌≡◌, ◌≤◌, ◌<◌, ◌++◌, [], length, map, take, drop, IfOk, IfErr};
ghost use Rattle.reduce_model.specs.Deciding.{after, is_kept, is_left, marked, those};
ghost use Rattle.reduce_model.specs.Passes.{before_second_pass, AreFirstWitnesses, AreKeptPrefixes, IsAsked, IsSecondPassed, IsTestedAt, RefusesSecondPass};

use crate::Decision;
use crate::grown::{Sought, seek};
use crate::others::push_kept;
use crate::prefixes::{Prefix, longest};
use decl_base::{Refusal, Trace};
use std::alloc::{AllocError, Global};
use template_core::Constraint;

/// Marks, from the last to the first, each candidate that the others imply which still stand. Gives the witnesses of the model for its first
/// constraints: a test has all the others of the model where nothing before it is dropped later.
pub(crate) fn pass_second(
    alloc: Global,
    list: &[Constraint],
    symbols: u32,
    states: u64,
    prefixes: &[Prefix],
    decisions: &mut [Decision],
) -> Result<Vec<Trace>, Refusal>
    requires asked { IsAsked symbols states list.now }
    requires as_many { length decisions.old ≡ length list.now }
    requires kept { AreKeptPrefixes symbols states list.now (map is_left decisions.old) prefixes.now }
    requires passed { map before_second_pass decisions.old ≡ decisions.old }
    ensures ok { IfOk result (λ found. IsSecondPassed symbols states list.now decisions.old decisions.new) }
    ensures found { IfOk result (λ found. AreFirstWitnesses symbols states [] (those is_kept list.now decisions.new) found.items) }
    ensures first { IfOk result (λ found. take (length found.items) (those is_left list.now decisions.new)
        ≡ take (length found.items) (those is_kept list.now decisions.new)) }
    ensures err { IfErr result (RefusesSecondPass symbols states list.now decisions.old) }
{
    let mut found = Vec::new(alloc);
    let mut place = list.len();
    while place > 0 {
        place -= 1;
        if decisions[place].is_kept() {
            let sought = test_at(alloc, list, symbols, states, prefixes, decisions, place)?;
            decisions[place] = match sought {
                Sought::Found(witness) => {
                    found.push(witness)?;
                    Decision::Kept
                }
                Sought::Missing => {
                    found.clear();
                    Decision::SecondPass
                }
                Sought::TooWide(built) => return Err(Refusal::States { phase: 3, built }),
            };
        }
    }
    found.reverse();
    Ok(found)
}

/// Whether the others that still stand imply the candidate at a place. Those before it that are left all still stand.
pub(crate) fn test_at(
    alloc: Global,
    list: &[Constraint],
    symbols: u32,
    states: u64,
    prefixes: &[Prefix],
    decisions: &[Decision],
    place: usize,
) -> Result<Sought, Refusal>
    requires asked { IsAsked symbols states list.now }
    requires as_many { length decisions.now ≡ length list.now }
    requires kept { AreKeptPrefixes symbols states list.now (map is_left decisions.now) prefixes.now }
    requires there { place < length list.now }
    requires standing { take place (map is_kept decisions.now) ≡ take place (map is_left decisions.now) }
    ensures ok { IfOk result (IsTestedAt symbols states list.now decisions.now place) }
    ensures err { IfErr result (λ e. e ≡ Refusal.Memory) }
{
    let start = &prefixes[longest(prefixes, place, u32::MAX)];
    let others = others_from(alloc, list, decisions, start.place, place)?;
    seek(alloc, start, &others, &list[place], symbols, states)
}

/// The candidates that stand from a place on, but for the one at another.
fn others_from(
    alloc: Global,
    list: &[Constraint],
    decisions: &[Decision],
    from: usize,
    place: usize,
) -> Result<Vec<Constraint>, AllocError>
    requires as_many { length decisions.now ≡ length list.now }
    requires order { from ≤ place }
    requires there { place < length list.now }
    ensures { IfOk result (λ others. others.items ≡ marked (drop from (take place (map is_kept decisions.now))) (drop from
        (take place list.now)) ++ after is_kept place list.now decisions.now) }
{
    let mut others = Vec::new(alloc);
    push_kept(&list[from..place], &decisions[from..place], &mut others)?;
    push_kept(&list[place + 1..], &decisions[place + 1..], &mut others)?;
    Ok(others)
}
