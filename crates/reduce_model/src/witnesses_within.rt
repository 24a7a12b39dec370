ghost use Rattle.std.specs.Prelude.{◌≡◌, ◌+◌, ◌<◌, ◌≤◌, ◌^◌, [], length, All, IfOk, IfErr};
ghost use Rattle.decl_base.specs.Limits.{greatest_state_limit, standard};
ghost use Rattle.template_core.specs.Constraints.{IsWellMade, IsWellMadeFor};
ghost use Rattle.reduce_model.specs.Passes.{IsAsked, IsBreakable, IsFoundOf, IsNext, IsSmall, IsTestedWithin, IsWitnessedWithin, length_of};

use crate::Decision;
use crate::grown::{Sought, seek};
use crate::others::push_kept;
use crate::prefixes::Prefix;
use decl_base::{Refusal, Trace};
use std::alloc::Global;
use template_core::Constraint;

/// What comes of a list within a limit: the decisions, and the witnesses of those that are kept.
#[derive(Drop)]
pub(crate) struct Witnessed {
    pub decisions: Vec<Decision>,
    pub witnesses: Vec<Trace>,
}

/// For each candidate that is kept the least trace that keeps all the others that stay and breaks it. Where a list that this asks for is wide,
/// the candidate is untested.
pub(crate) fn witnesses_within(
    alloc: Global,
    list: &[Constraint],
    symbols: u32,
    states: u64,
    decisions: &[Decision],
) -> Result<Witnessed, Refusal>
    requires asked { IsAsked symbols states list.now }
    requires as_many { length decisions.now ≡ length list.now }
    requires tested { IsTestedWithin symbols states [] list.now decisions.now }
    ensures ok { IfOk result (IsWitnessedWithin symbols states list.now decisions.now) }
    ensures err { IfErr result (λ e. e ≡ Refusal.Memory) }
{
    let mut before = Some(Prefix::empty(alloc, symbols)?);
    let mut last = 1;
    let mut told = Vec::new(alloc);
    let mut witnesses = Vec::new(alloc);
    for (place, constraint) in list.iter().enumerate() {
        let mut decision = decisions[place];
        if let Decision::Kept = decision {
            let mut after = Vec::new(alloc);
            push_kept(&list[place + 1..], &decisions[place + 1..], &mut after)?;
            match witness_of(alloc, &before, &after, constraint, symbols, states)? {
                Some(witness) => witnesses.push(witness)?,
                None => decision = Decision::Untested,
            }
        }
        if decision.is_kept() {
            before = with_next(alloc, before, constraint, states, &mut last)?;
        }
        told.push(decision)?;
    }
    Ok(Witnessed {
        decisions: told,
        witnesses,
    })
}

/// The least trace that keeps a prefix and a list and breaks a constraint. None where there is no prefix or a list is wide.
fn witness_of(
    alloc: Global,
    before: &Option<Prefix>,
    after: &[Constraint],
    constraint: &Constraint,
    symbols: u32,
    states: u64,
) -> Result<Option<Trace>, Refusal>
    requires made { All (IsWellMadeFor symbols) after.now }
    requires candidate { IsWellMadeFor symbols constraint.now }
    requires few { IsSmall before.now }
    requires short { length_of before.now + length after.now ≤ standard.candidates }
    requires few_states { states ≤ greatest_state_limit }
    requires breakable { IsBreakable before.now after.now constraint.now }
    ensures ok { IfOk result (IsFoundOf states before.now after.now constraint.now) }
    ensures err { IfErr result (λ e. e ≡ Refusal.Memory) }
{
    let Some(start) = before else {
        return Ok(None);
    };
    match seek(alloc, start, after, constraint, symbols, states)? {
        Sought::Found(trace) => Ok(Some(trace)),
        Sought::Missing => unreachable!(),
        Sought::TooWide(_) => Ok(None),
    }
}

/// A prefix with one constraint more, or None where it is wide.
fn with_next(
    alloc: Global,
    before: Option<Prefix>,
    constraint: &Constraint,
    states: u64,
    last: &mut u32,
) -> Result<Option<Prefix>, Refusal>
    requires made { IsWellMade constraint.now.kind constraint.now.first constraint.now.second }
    requires few { IsSmall before }
    requires room { length_of before + 1 < 2 ^ 32 }
    ensures ok { IfOk result (IsNext states before constraint.now) }
    ensures err { IfErr result (λ e. e ≡ Refusal.Memory) }
{
    match before {
        Some(start) => start.longer(alloc, constraint, states, last),
        None => Ok(None),
    }
}
