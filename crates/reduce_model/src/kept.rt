ghost use Rattle.std.specs.Prelude.{◌≡◌, ◌+◌, ◌<◌, ◌≤◌, ◌^◌, IfOk, IfErr};
ghost use Rattle.decl_base.specs.Limits.{greatest_state_limit};
ghost use Rattle.dfa_core.specs.Automaton.{state_count};
ghost use Rattle.template_core.specs.Constraints.{IsWellMade};
ghost use Rattle.reduce_model.specs.Joining.{IsEmptyKept, IsTakenIn, IsTried};

use crate::Decision;
use decl_base::{Refusal, Trace};
use dfa_core::Dfa;
use dfa_product::{Want, first_trace};
use list_dfa::{extended, first_broken, fitted, narrowed};
use std::alloc::Global;
use template_core::Constraint;

/// A list of constraints, carried as an automaton of the traces that keep it.
#[derive(Drop)]
pub(crate) struct KeptList {
    pub dfa: Dfa,
    pub length: u32,
    /// The least trace that keeps the list.
    pub example: Trace,
}

/// What comes of a candidate that a list may imply.
#[derive(Drop)]
pub(crate) enum Tried {
    /// The list implies it.
    Implied,
    /// It doesn't: the list with the candidate.
    Left(Dfa),
    /// It doesn't, and the list with the candidate tells too many traces apart.
    TooWide,
}

impl KeptList {
    /// The list of no constraint.
    pub fn empty(alloc: Global, symbols: u32) -> Result<KeptList, Refusal>
        ensures ok { IfOk result (IsEmptyKept symbols) }
        ensures err { IfErr result (λ e. e ≡ Refusal.Memory) }
    {
        Ok(KeptList {
            dfa: Dfa::everything(alloc, symbols)?,
            length: 0,
            example: Trace::of(alloc, &[])?,
        })
    }

    /// Puts a candidate at the end of the list where some trace keeps both and they don't tell too many traces apart.
    pub fn take_in(
        &mut self,
        alloc: Global,
        candidate: &Constraint,
        states: u64,
        last: &mut u32,
    ) -> Result<Decision, Refusal>
        requires made { IsWellMade candidate.now.kind candidate.now.first candidate.now.second }
        requires few { state_count self.old.dfa ≤ greatest_state_limit }
        requires room { self.old.length + 1 < 2 ^ 32 }
        ensures ok { IfOk result (IsTakenIn states self.old candidate.now self.new) }
        ensures err { IfErr result (λ e. e ≡ Refusal.Memory) }
    {
        if first_broken(alloc, &self.dfa, candidate)?.is_none() {
            self.length += 1;
            return Ok(Decision::Kept);
        }
        let both = narrowed(alloc, &self.dfa, candidate)?;
        let Some(example) = first_trace(alloc, &both, &Want::Accepted)? else {
            return Ok(Decision::Conflict);
        };
        match fitted(alloc, both, states, last)? {
            Some(dfa) => {
                *self = KeptList {
                    dfa,
                    length: self.length + 1,
                    example,
                };
                Ok(Decision::Kept)
            }
            None => Ok(Decision::Beyond),
        }
    }
}

/// Whether a list implies a candidate, and the list with the candidate where not.
pub(crate) fn try_candidate(
    alloc: Global,
    dfa: &Dfa,
    candidate: &Constraint,
    states: u64,
    last: &mut u32,
) -> Result<Tried, Refusal>
    requires made { IsWellMade candidate.now.kind candidate.now.first candidate.now.second }
    requires few { state_count dfa.now ≤ greatest_state_limit }
    ensures ok { IfOk result (IsTried states dfa.now candidate.now) }
    ensures err { IfErr result (λ e. e ≡ Refusal.Memory) }
{
    if first_broken(alloc, dfa, candidate)?.is_none() {
        return Ok(Tried::Implied);
    }
    match extended(alloc, dfa, candidate, states, last)? {
        Some(dfa) => Ok(Tried::Left(dfa)),
        None => Ok(Tried::TooWide),
    }
}
