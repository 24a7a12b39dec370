ghost use Rattle.std.specs.Prelude.{◌≡◌, IfOk, IfErr};
ghost use Rattle.dfa_core.specs.Languages.{IsLeastIfAny};
ghost use Rattle.dfa_product.specs.Wanted.{FitsStates, IsWanted};

use crate::pairs::{Pairs, TableSteps};
use decl_base::{Refusal, Trace};
use dfa_core::{Dfa, first_accepted};
use std::alloc::Global;
use template_core::{Constraint, Table};

/// Which traces of an automaton are wanted.
#[derive(Clone, Copy)]
pub enum Want {
    /// All that it accepts.
    Accepted,
    /// Those of them that don't keep a constraint.
    Beside {
        table: Table,
        constraint: Constraint,
    },
}

/// The least trace in shortlex order that is wanted of the automaton. The search ends at the first that it finds, so that this also tells
/// whether all that the automaton accepts keeps a constraint, and builds no table for it.
pub fn first_trace(alloc: Global, dfa: &Dfa, want: &Want) -> Result<Option<Trace>, Refusal>
    requires { FitsStates dfa.now want.now }
    ensures ok { IfOk result (IsLeastIfAny dfa.now.symbols (IsWanted dfa.now want.now)) }
    ensures err { IfErr result (λ e. e ≡ Refusal.Memory) }
{
    match want {
        Want::Accepted => first_accepted(alloc, dfa),
        Want::Beside { table, constraint } => {
            let second = TableSteps {
                symbols: dfa.symbols(),
                table,
                constraint,
                keeps: false,
            };
            let pairs = Pairs {
                first: dfa,
                second: &second,
                width: table.states as u32,
            };
            first_accepted(alloc, &pairs)
        }
    }
}
