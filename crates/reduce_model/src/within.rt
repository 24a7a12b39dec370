ghost use Rattle.std.specs.Prelude.{◌≡◌, ◌≤◌, [], length, All, IfOk, IfErr};
ghost use Rattle.decl_base.specs.Limits.{greatest_state_limit, standard};
ghost use Rattle.template_core.specs.Constraints.{IsWellMadeFor};
ghost use Rattle.reduce_model.specs.Passes.{IsAsked, IsDroppedWithin};
ghost use Rattle.reduce_model.specs.Within.{IsReductionWithin, IsSiftWithin, IsSiftedWithin};

use crate::first_within::{FirstPassed, pass_first_within};
use crate::kept::KeptList;
use crate::pruning::prune;
use crate::second_within::pass_second_within;
use crate::witnesses_within::{Witnessed, witnesses_within};
use crate::{Decision, Reduced, Sifted};
use decl_base::Refusal;
use std::alloc::Global;
use template_core::Constraint;

/// Goes through the candidates in their order, as `sift` does, and goes on where a kept list, as it arises, would tell more traces apart than
/// `states`: the candidate is marked as beyond, and doesn't join. Refused where there is no memory alone.
pub fn sift_within(
    alloc: Global,
    list: &[Constraint],
    symbols: u32,
    states: u64,
) -> Result<Sifted, Refusal>
    requires made { All (IsWellMadeFor symbols) list.now }
    requires few { length list.now ≤ standard.candidates }
    requires some_states { 1 ≤ states }
    requires few_states { states ≤ greatest_state_limit }
    ensures ok { IfOk result (IsSiftWithin symbols states list.now) }
    ensures err { IfErr result (λ e. e ≡ Refusal.Memory) }
{
    let mut kept = KeptList::empty(alloc, symbols)?;
    let mut decisions = Vec::new(alloc);
    let mut last = 1;
    for candidate in list {
        let decision = kept.take_in(alloc, candidate, states, &mut last)?;
        decisions.push(decision)?;
    }
    let KeptList { example, .. } = kept;
    Ok(Sifted { decisions, example })
}

/// Goes through the candidates as `sift_within` does, and then drops each constraint of that model that another one of it is above or that
/// those which stay imply. A list that tells more traces apart than `states` drops none, and a constraint whose lists do so is marked as
/// untested and has no witness. Refused where there is no memory alone.
pub fn reduce_within(
    alloc: Global,
    list: &[Constraint],
    symbols: u32,
    states: u64,
) -> Result<Reduced, Refusal>
    requires made { All (IsWellMadeFor symbols) list.now }
    requires few { length list.now ≤ standard.candidates }
    requires some_states { 1 ≤ states }
    requires few_states { states ≤ greatest_state_limit }
    ensures ok { IfOk result (IsReductionWithin symbols states list.now) }
    ensures err { IfErr result (λ e. e ≡ Refusal.Memory) }
{
    let Sifted {
        mut decisions,
        example,
    } = sift_within(alloc, list, symbols, states)?;
    let Witnessed {
        decisions: told,
        witnesses,
    } = drop_within(alloc, list, symbols, states, &mut decisions)?;
    Ok(Reduced {
        decisions: told,
        witnesses,
        example,
    })
}

/// Goes on after the conflicts are told and what is beyond.
fn drop_within(
    alloc: Global,
    list: &[Constraint],
    symbols: u32,
    states: u64,
    decisions: &mut [Decision],
) -> Result<Witnessed, Refusal>
    requires asked { IsAsked symbols states list.now }
    requires sifted { IsSiftedWithin symbols states [] list.now decisions.old }
    ensures ok { IfOk result (λ witnessed. IsDroppedWithin symbols states list.now decisions.old witnessed) }
    ensures err { IfErr result (λ e. e ≡ Refusal.Memory) }
{
    prune(list, decisions);
    let FirstPassed {
        decisions: mut tested,
        prefixes,
        wide,
    } = pass_first_within(alloc, list, symbols, states, decisions)?;
    pass_second_within(alloc, list, symbols, states, &prefixes, wide, &mut tested)?;
    witnesses_within(alloc, list, symbols, states, &tested)
}
