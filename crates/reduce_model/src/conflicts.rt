ghost use Rattle.std.specs.Prelude.{◌≤◌, length, All, IfOk, IfErr};
ghost use Rattle.decl_base.specs.Limits.{greatest_state_limit, standard};
ghost use Rattle.template_core.specs.Constraints.{IsWellMadeFor};
ghost use Rattle.reduce_model.specs.Sifting.{IsSift, RefusesSift};

use crate::kept::KeptList;
use crate::{Decision, Sifted};
use decl_base::Refusal;
use std::alloc::Global;
use template_core::Constraint;

/// Goes through the candidates in their order. One joins the kept list where some trace over the symbols keeps that list and it.
/// Refused where a kept list, as it arises, tells more traces apart than `states`.
pub fn sift(
    alloc: Global,
    list: &[Constraint],
    symbols: u32,
    states: u64,
) -> Result<Sifted, Refusal>
    requires made { All (IsWellMadeFor symbols) list.now }
    requires few { length list.now ≤ standard.candidates }
    requires some_states { 1 ≤ states }
    requires few_states { states ≤ greatest_state_limit }
    ensures ok { IfOk result (IsSift symbols states list.now) }
    ensures err { IfErr result (RefusesSift symbols states list.now) }
{
    let mut kept = KeptList::empty(alloc, symbols)?;
    let mut decisions = Vec::new(alloc);
    let mut last = 1;
    for candidate in list {
        match kept.take_in(alloc, candidate, states, &mut last)? {
            Decision::Beyond => {
                let built = kept.length + 1;
                return Err(Refusal::States { phase: 1, built });
            }
            decision => decisions.push(decision)?,
        }
    }
    let KeptList { example, .. } = kept;
    Ok(Sifted { decisions, example })
}
