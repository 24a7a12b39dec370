ghost use Rattle.std.specs.Prelude.{◌≡◌, IfOk, IfErr};
ghost use Rattle.dfa_core.specs.Languages.{IsLeastIfAny};
ghost use Rattle.dfa_product.specs.Wanted.{IsOutside};

use crate::pairs::{Complement, Pairs};
use decl_base::{Refusal, Trace};
use dfa_core::{Dfa, first_accepted};
use std::alloc::Global;

/// The least trace in shortlex order that `first` accepts and `second` doesn't. The search ends at the first that it finds. It keeps a number for
/// each pair of their states, and a state is a u32: where there are more pairs than numbers of 32 bits, this answers with want of memory.
pub fn first_outside(alloc: Global, first: &Dfa, second: &Dfa) -> Result<Option<Trace>, Refusal>
    requires same_symbols { second.now.symbols ≡ first.now.symbols }
    ensures ok { IfOk result (IsLeastIfAny first.now.symbols (IsOutside first.now second.now)) }
    ensures err { IfErr result (λ e. e ≡ Refusal.Memory) }
{
    let width = second.states();
    if first.states().checked_mul(width).is_none() {
        return Err(Refusal::Memory);
    }
    let others = Complement { dfa: second };
    let pairs = Pairs {
        first,
        second: &others,
        width,
    };
    first_accepted(alloc, &pairs)
}
