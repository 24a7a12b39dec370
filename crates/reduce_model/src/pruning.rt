ghost use Rattle.std.specs.Prelude.{◌≡◌, ◌≤◌, ℕ, length, map, MatchOption};
ghost use Rattle.decl_base.specs.Limits.{standard};
ghost use Rattle.reduce_model.specs.Deciding.{as_sifted, is_consistent};
ghost use Rattle.reduce_model.specs.Passes.{IsPruned};
ghost use Rattle.reduce_model.specs.Reduction.{IsAbove, IsFirstAbove};

use crate::Decision;
use template_core::Constraint;
use template_set::stronger;

/// Marks each constraint of the conflict-free model that another one of it is above.
pub(crate) fn prune(list: &[Constraint], decisions: &mut [Decision])
    requires as_many { length decisions.old ≡ length list.now }
    requires few { length list.now ≤ standard.candidates }
    requires sifted { map as_sifted decisions.old ≡ decisions.old }
    ensures { IsPruned list.now decisions.old decisions.new }
{
    for place in 0..list.len() {
        if decisions[place].is_consistent() {
            if let Some(by) = first_above(list, decisions, &list[place]) {
                decisions[place] = Decision::Weaker { by };
            }
        }
    }
}

/// The place of the first constraint of the conflict-free model that is above a constraint.
fn first_above(list: &[Constraint], decisions: &[Decision], constraint: &Constraint) -> Option<u32>
    requires as_many { length decisions.now ≡ length list.now }
    requires few { length list.now ≤ standard.candidates }
    ensures { MatchOption result ((place : ℕ) → IsAbove list.now (map is_consistent decisions.now) constraint.now place
        → ⊥) (IsFirstAbove list.now (map is_consistent decisions.now) constraint.now) }
{
    for (place, other) in list.iter().enumerate() {
        if decisions[place].is_consistent() && stronger(other, constraint) {
            return Some(place as u32);
        }
    }
    None
}
