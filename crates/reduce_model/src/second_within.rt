ghost use Rattle.std.specs.Prelude.{◌≡◌, length, map, IfOk, IfErr};
ghost use Rattle.reduce_model.specs.Deciding.{is_left};
ghost use Rattle.reduce_model.specs.Passes.{before_second_pass, AreClosedPast, AreKeptPrefixes, IsAsked, IsSecondPassedTo};

use crate::Decision;
use crate::grown::Sought;
use crate::prefixes::Prefix;
use crate::second_pass::test_at;
use decl_base::Refusal;
use std::alloc::Global;
use template_core::Constraint;

/// Marks, from the last to the first, each candidate that the others imply which still stand. One whose test is closed is untested: those past
/// the place `wide` are.
pub(crate) fn pass_second_within(
    alloc: Global,
    list: &[Constraint],
    symbols: u32,
    states: u64,
    prefixes: &[Prefix],
    wide: usize,
    decisions: &mut [Decision],
) -> Result<(), Refusal>
    requires asked { IsAsked symbols states list.now }
    requires as_many { length decisions.old ≡ length list.now }
    requires kept { AreKeptPrefixes symbols states list.now (map is_left decisions.old) prefixes.now }
    requires closed { AreClosedPast symbols states list.now (map is_left decisions.old) wide }
    requires passed { map before_second_pass decisions.old ≡ decisions.old }
    ensures ok { IfOk result (λ done. IsSecondPassedTo symbols states list.now decisions.old decisions.new) }
    ensures err { IfErr result (λ e. e ≡ Refusal.Memory) }
{
    let mut place = list.len();
    while place > 0 {
        place -= 1;
        if decisions[place].is_kept() {
            let decision = if place > wide {
                Decision::Untested
            } else {
                match test_at(alloc, list, symbols, states, prefixes, decisions, place)? {
                    Sought::Found(_witness) => Decision::Kept,
                    Sought::Missing => Decision::SecondPass,
                    Sought::TooWide(_) => Decision::Untested,
                }
            };
            decisions[place] = decision;
        }
    }
    Ok(())
}
