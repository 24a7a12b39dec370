ghost use Rattle.std.specs.Prelude.{◌≡◌, ◌≤◌, [], All, IfOk, IfErr, length};
ghost use Rattle.decl_base.specs.Limits.{standard};
ghost use Rattle.template_core.specs.Constraints.{IsWellMadeFor};
ghost use Rattle.dfa_core.specs.Languages.{IsLeastMember};
ghost use Rattle.reduce_model.specs.Deciding.{is_kept, those};
ghost use Rattle.reduce_model.specs.Keeping.{KeepsAll};
ghost use Rattle.reduce_model.specs.Reduction.{AreWitnesses, IsReduced};
ghost use Rattle.chain_make.specs.Claims.{claim_of, dropped_as, left_out as left_out_of};

use chain_cert::{Claim, Dropped};
use decl_base::{Refusal, Trace};
use reduce_model::{Decision, Reduced};
use std::alloc::Global;
use template_core::Constraint;

/// The candidates that stay.
pub(crate) fn kept(
    alloc: Global,
    list: &[Constraint],
    decisions: &[Decision],
) -> Result<Vec<Constraint>, Refusal>
    requires { length decisions.now ≡ length list.now }
    ensures ok { IfOk result (λ kept. kept.items ≡ those is_kept list.now decisions.now) }
    ensures err { IfErr result (λ e. e ≡ Refusal.Memory) }
{
    let mut kept = Vec::new(alloc);
    for (place, constraint) in list.iter().enumerate() {
        if decisions[place].is_kept() {
            kept.push(*constraint)?;
        }
    }
    Ok(kept)
}

/// A candidate that doesn't stay, and whether it is a conflict.
fn dropped_as(decision: Decision, constraint: Constraint) -> Dropped
    ensures { result ≡ dropped_as decision constraint }
{
    Dropped {
        constraint,
        conflict: matches!(decision, Decision::Conflict),
    }
}

/// The candidates that don't stay, and which of them are conflicts.
pub(crate) fn left_out(
    alloc: Global,
    list: &[Constraint],
    decisions: &[Decision],
) -> Result<Vec<Dropped>, Refusal>
    requires { length decisions.now ≡ length list.now }
    ensures ok { IfOk result (λ dropped. dropped.items ≡ left_out_of list.now decisions.now) }
    ensures err { IfErr result (λ e. e ≡ Refusal.Memory) }
{
    let mut dropped = Vec::new(alloc);
    for (place, constraint) in list.iter().enumerate() {
        let decision = decisions[place];
        if !decision.is_kept() {
            dropped.push(dropped_as(decision, *constraint))?;
        }
    }
    Ok(dropped)
}

/// The same traces.
fn copied(alloc: Global, traces: &[Trace]) -> Result<Vec<Trace>, Refusal>
    ensures ok { IfOk result (λ copied. copied.items ≡ traces.now) }
    ensures err { IfErr result (λ e. e ≡ Refusal.Memory) }
{
    let mut copied = Vec::new(alloc);
    for trace in traces {
        copied.push(Trace::of(alloc, trace.events())?)?;
    }
    Ok(copied)
}

/// The claim of a list of candidates and its reduction: the constraints that stay with their witnesses, those that don't, in order,
/// each marked as a conflict exactly where it was left out as one, and the example.
pub(crate) fn make_claim(
    alloc: Global,
    list: &[Constraint],
    reduced: &Reduced,
    symbols: u32,
) -> Result<Claim, Refusal>
    requires made { All (IsWellMadeFor symbols) list.now }
    requires few { length list.now ≤ standard.candidates }
    requires few_symbols { symbols ≤ 1000 }
    requires decisions { IsReduced symbols list.now reduced.now.decisions }
    requires witnesses { AreWitnesses symbols [] (those is_kept list.now reduced.now.decisions) reduced.now.witnesses }
    requires example { IsLeastMember symbols (KeepsAll (those is_kept list.now reduced.now.decisions)) reduced.now.example }
    ensures ok { IfOk result (λ claim. claim ≡ claim_of symbols list.now reduced.now) }
    ensures err { IfErr result (λ e. e ≡ Refusal.Memory) }
{
    let model = kept(alloc, list, reduced.decisions())?;
    let dropped = left_out(alloc, list, reduced.decisions())?;
    let witnesses = copied(alloc, reduced.witnesses())?;
    let example = Trace::of(alloc, reduced.example().events())?;
    match Claim::of(symbols, model, witnesses, dropped, example) {
        Some(claim) => Ok(claim),
        None => unreachable!(),
    }
}
