ghost use Rattle.std.specs.Prelude.{◌≤◌, [], length, All, IfOk, IfErr};
ghost use Rattle.decl_base.specs.Limits.{greatest_state_limit, standard};
ghost use Rattle.template_core.specs.Constraints.{IsWellMadeFor};
ghost use Rattle.reduce_model.specs.Passes.{IsAsked, IsImpliedDropped};
ghost use Rattle.reduce_model.specs.Reduction.{IsReduction, RefusesReduction};
ghost use Rattle.reduce_model.specs.Sifting.{IsNarrow, IsSifted};

use crate::first_pass::pass_first;
use crate::others::push_kept;
use crate::prefixes::longest;
use crate::pruning::prune;
use crate::second_pass::pass_second;
use crate::witnesses::witnesses_of;
use crate::{Decision, Reduced, Sifted, sift};
use decl_base::{Refusal, Trace};
use std::alloc::Global;
use template_core::Constraint;

/// Goes through the candidates as `sift` does, and then drops each constraint of the conflict-free model that another one of it is above
/// or that those which stay imply. Refused where a list, as it is built, tells more traces apart than `states`.
pub fn reduce(
    alloc: Global,
    list: &[Constraint],
    symbols: u32,
    states: u64,
) -> Result<Reduced, Refusal>
    requires made { All (IsWellMadeFor symbols) list.now }
    requires few { length list.now ≤ standard.candidates }
    requires some_states { 1 ≤ states }
    requires few_states { states ≤ greatest_state_limit }
    ensures ok { IfOk result (IsReduction symbols states list.now) }
    ensures err { IfErr result (RefusesReduction symbols states list.now) }
{
    let Sifted {
        mut decisions,
        example,
    } = sift(alloc, list, symbols, states)?;
    let witnesses = drop_implied(alloc, list, symbols, states, &mut decisions)?;
    Ok(Reduced {
        decisions,
        witnesses,
        example,
    })
}

/// Goes on after the conflicts are told, and gives the witnesses of what stays.
fn drop_implied(
    alloc: Global,
    list: &[Constraint],
    symbols: u32,
    states: u64,
    decisions: &mut [Decision],
) -> Result<Vec<Trace>, Refusal>
    requires asked { IsAsked symbols states list.now }
    requires sifted { IsSifted symbols [] list.now decisions.old }
    requires narrow { IsNarrow symbols states list.now }
    ensures ok { IfOk result (λ witnesses. IsImpliedDropped symbols states list.now decisions.old decisions.new witnesses.items) }
    ensures err { IfErr result (RefusesReduction symbols states list.now) }
{
    prune(list, decisions);
    let prefixes = pass_first(alloc, list, symbols, states, decisions)?;
    let found = pass_second(alloc, list, symbols, states, &prefixes, decisions)?;
    let mut model = Vec::new(alloc);
    push_kept(list, decisions, &mut model)?;
    let start = &prefixes[longest(&prefixes, list.len(), found.len() as u32)];
    witnesses_of(alloc, &model, symbols, states, start, found)
}
