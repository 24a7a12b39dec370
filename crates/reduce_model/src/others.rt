ghost use Rattle.std.specs.Prelude.{◌≡◌, ◌++◌, length, OnOk};
ghost use Rattle.reduce_model.specs.Deciding.{is_kept, those};

use crate::Decision;
use std::alloc::AllocError;
use template_core::Constraint;

/// Puts the candidates that stand at the end of a list.
pub(crate) fn push_kept(
    list: &[Constraint],
    decisions: &[Decision],
    kept: &mut Vec<Constraint>,
) -> Result<(), AllocError>
    requires { length decisions.now ≡ length list.now }
    ensures { OnOk result (kept.new.items ≡ kept.old.items ++ those is_kept list.now decisions.now) }
{
    for (place, constraint) in list.iter().enumerate() {
        if decisions[place].is_kept() {
            kept.push(*constraint)?;
        }
    }
    Ok(())
}
