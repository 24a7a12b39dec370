ghost use Rattle.std.specs.Prelude.{◌≡◌, All, IfOk, IfErr};
ghost use Rattle.template_core.specs.Constraints.{IsWellMade};
ghost use Rattle.chain_make.specs.Chains.{AreImplied, ArePairs, Settles};

use crate::entries::pairs;
use crate::links::MOST_STATES;
use crate::product::Product;
use crate::search::states_beside;
use chain_cert::{Dropped, Pairs};
use decl_base::Refusal;
use dfa_core::Dfa;
use std::alloc::Global;
use template_set::table_of;

/// The pairs of a dropped constraint: those of an automaton and its table that a trace leads to. Beside them stands the one state of the automaton of all traces.
fn pairs_of(alloc: Global, dfa: &Dfa, dropped: &Dropped) -> Result<Pairs, Refusal>
    requires start { dfa.now.start ≡ 0 }
    requires made { IsWellMade dropped.now.constraint.kind dropped.now.constraint.first dropped.now.constraint.second }
    requires settles { Settles dfa.now dropped.now }
    ensures ok { IfOk result (λ pairs. ArePairs dfa.now dropped.now pairs) }
    ensures err { IfErr result (λ e. e ≡ Refusal.Memory) }
{
    if dfa.states() > MOST_STATES {
        return Err(Refusal::Memory);
    }
    let table = table_of(dropped.constraint.kind);
    let everything = Dfa::everything(alloc, dfa.symbols())?;
    let product = Product {
        dfa,
        table: &table,
        constraint: &dropped.constraint,
    };
    let beside = states_beside(alloc, &product, &everything)?;
    match Pairs::of(pairs(alloc, &beside, table.states as u32)?) {
        Some(pairs) => Ok(pairs),
        None => unreachable!(),
    }
}

/// The pairs of each dropped constraint.
pub(crate) fn implied_of(
    alloc: Global,
    dfa: &Dfa,
    dropped: &[Dropped],
) -> Result<Vec<Pairs>, Refusal>
    requires start { dfa.now.start ≡ 0 }
    requires made { All (λ d. IsWellMade d.constraint.kind d.constraint.first d.constraint.second) dropped.now }
    requires settles { All (Settles dfa.now) dropped.now }
    ensures ok { IfOk result (λ implied. AreImplied dfa.now dropped.now implied.items) }
    ensures err { IfErr result (λ e. e ≡ Refusal.Memory) }
{
    let mut implied = Vec::new(alloc);
    for item in dropped {
        implied.push(pairs_of(alloc, dfa, item)?)?;
    }
    Ok(implied)
}
