ghost use Rattle.std.specs.Prelude.{◌≡◌, IfOk, IfErr};
ghost use Rattle.scoring.specs.Candidates.{mined_kinds};

use decl_base::Refusal;
use std::alloc::Global;
use template_core::{Kind, Repertoire, is_candidate};
use template_set::kinds;

/// The templates of a repertoire whose constraints are mined, in the order of their numbers.
pub(crate) fn mined_kinds(alloc: Global, repertoire: Repertoire) -> Result<Vec<Kind>, Refusal>
    ensures kinds { IfOk result (λ mined. mined.items ≡ mined_kinds repertoire) }
    ensures err { IfErr result (λ e. e ≡ Refusal.Memory) }
{
    let mut mined = Vec::new(alloc);
    for kind in kinds() {
        if is_candidate(repertoire, kind) {
            mined.push(kind)?;
        }
    }
    Ok(mined)
}
