ghost use Rattle.std.specs.Prelude.{◌≡◌, length, map, IfOk, IfErr};
ghost use Rattle.reduce_model.specs.Passes.{before_first_pass, IsAsked, IsFirstPassedOf};

use crate::Decision;
use crate::first_pass::MOST_ENTRIES;
use crate::kept::{Tried, try_candidate};
use crate::prefixes::{Prefix, first_prefix, keep};
use decl_base::Refusal;
use dfa_core::Dfa;
use std::alloc::Global;
use template_core::Constraint;

/// What the first pass makes of a list within a limit.
#[derive(Drop)]
pub(crate) struct FirstPassed {
    pub decisions: Vec<Decision>,
    /// What is left, as it arises, while it isn't wide.
    pub prefixes: Vec<Prefix>,
    /// The place of the first candidate with which what is left is wide, or the number of candidates.
    pub wide: usize,
}

/// Marks, from the first to the last, each candidate that those before it imply which have joined. One that is left joins them where the list with
/// it isn't wide.
pub(crate) fn pass_first_within(
    alloc: Global,
    list: &[Constraint],
    symbols: u32,
    states: u64,
    decisions: &[Decision],
) -> Result<FirstPassed, Refusal>
    requires asked { IsAsked symbols states list.now }
    requires as_many { length decisions.now ≡ length list.now }
    requires pruned { map before_first_pass decisions.now ≡ decisions.now }
    ensures ok { IfOk result (IsFirstPassedOf symbols states list.now decisions.now) }
    ensures err { IfErr result (λ e. e ≡ Refusal.Memory) }
{
    let mut joined = Dfa::everything(alloc, symbols)?;
    let mut length = 0;
    let mut prefixes = first_prefix(alloc, symbols)?;
    let mut spare = MOST_ENTRIES;
    let mut last = 1;
    let mut wide = list.len();
    let mut passed = Vec::new(alloc);
    for (place, constraint) in list.iter().enumerate() {
        let mut decision = decisions[place];
        if decision.is_kept() {
            match try_candidate(alloc, &joined, constraint, states, &mut last)? {
                Tried::Implied => decision = Decision::FirstPass,
                Tried::Left(more) => {
                    if wide == list.len() {
                        keep(&mut prefixes, &mut spare, joined, place, length)?;
                        length += 1;
                    }
                    joined = more;
                }
                Tried::TooWide => wide = wide.min(place),
            }
        }
        passed.push(decision)?;
    }
    Ok(FirstPassed {
        decisions: passed,
        prefixes,
        wide,
    })
}
