ghost use Rattle.std.specs.Prelude.{◌≡◌, length, map, IfOk, IfErr};
ghost use Rattle.reduce_model.specs.Deciding.{is_left};
ghost use Rattle.reduce_model.specs.Passes.{before_first_pass, AreKeptPrefixes, IsAsked, IsFirstPassed, RefusesFirstPass};

use crate::Decision;
use crate::kept::{Tried, try_candidate};
use crate::prefixes::{Prefix, first_prefix, keep};
use decl_base::Refusal;
use dfa_core::Dfa;
use std::alloc::Global;
use template_core::Constraint;

/// The tables of all prefixes that are kept have at most so many entries.
pub(crate) const MOST_ENTRIES: u64 = 67_108_864;

/// Marks, from the first to the last, each candidate that those before it imply which are left. Gives what is left, as it arises.
pub(crate) fn pass_first(
    alloc: Global,
    list: &[Constraint],
    symbols: u32,
    states: u64,
    decisions: &mut [Decision],
) -> Result<Vec<Prefix>, Refusal>
    requires asked { IsAsked symbols states list.now }
    requires as_many { length decisions.old ≡ length list.now }
    requires pruned { map before_first_pass decisions.old ≡ decisions.old }
    ensures ok { IfOk result (λ prefixes. IsFirstPassed symbols states list.now decisions.old decisions.new) }
    ensures kept { IfOk result (λ prefixes. AreKeptPrefixes symbols states list.now (map is_left decisions.new) prefixes.items) }
    ensures err { IfErr result (RefusesFirstPass symbols states list.now decisions.old) }
{
    let mut left = Dfa::everything(alloc, symbols)?;
    let mut length = 0;
    let mut prefixes = first_prefix(alloc, symbols)?;
    let mut spare = MOST_ENTRIES;
    let mut last = 1;
    for place in 0..list.len() {
        if decisions[place].is_kept() {
            let built = length + 1;
            match try_candidate(alloc, &left, &list[place], states, &mut last)? {
                Tried::Implied => decisions[place] = Decision::FirstPass,
                Tried::Left(more) => {
                    keep(&mut prefixes, &mut spare, left, place, length)?;
                    left = more;
                    length = built;
                }
                Tried::TooWide => return Err(Refusal::States { phase: 2, built }),
            }
        }
    }
    Ok(prefixes)
}
