ghost use Rattle.std.specs.Prelude.{◌≡◌, ◌≤◌, [], All, IfOk, IfErr, length};
ghost use Rattle.decl_base.specs.Limits.{standard};
ghost use Rattle.template_core.specs.Constraints.{IsWellMadeFor};
ghost use Rattle.dfa_core.specs.Languages.{IsLeastMember};
ghost use Rattle.reduce_model.specs.Deciding.{is_kept, those};
ghost use Rattle.reduce_model.specs.Keeping.{KeepsAll};
ghost use Rattle.reduce_model.specs.Reduction.{AreWitnesses, IsReduced};
ghost use Rattle.chain_cert.specs.Checks.{IsRight};
ghost use Rattle.chain_cert.specs.Forms.{IsChain};
ghost use Rattle.chain_make.specs.Claims.{claim_of};

use crate::claim::{kept, left_out, make_claim};
use crate::implied::implied_of;
use crate::links::{Links, links_of};
use chain_cert::Chain;
use decl_base::Refusal;
use reduce_model::Reduced;
use std::alloc::Global;
use template_core::Constraint;

/// A chain for the claim of a list of candidates and its reduction, of which all checks hold.
pub fn make_chain(
    alloc: Global,
    list: &[Constraint],
    reduced: &Reduced,
    symbols: u32,
) -> Result<Chain, Refusal>
    requires made { All (IsWellMadeFor symbols) list.now }
    requires few { length list.now ≤ standard.candidates }
    requires few_symbols { symbols ≤ 1000 }
    requires decisions { IsReduced symbols list.now reduced.now.decisions }
    requires witnesses { AreWitnesses symbols [] (those is_kept list.now reduced.now.decisions) reduced.now.witnesses }
    requires example { IsLeastMember symbols (KeepsAll (those is_kept list.now reduced.now.decisions)) reduced.now.example }
    ensures form { IfOk result (IsChain (claim_of symbols list.now reduced.now)) }
    ensures right { IfOk result (IsRight (claim_of symbols list.now reduced.now)) }
    ensures err { IfErr result (λ e. e ≡ Refusal.Memory) }
{
    let claim = make_claim(alloc, list, reduced, symbols)?;
    let model = kept(alloc, list, reduced.decisions())?;
    let Links { links, last } = links_of(alloc, &model, symbols)?;
    let dropped = left_out(alloc, list, reduced.decisions())?;
    let implied = implied_of(alloc, &last, &dropped)?;
    match Chain::of(&claim, links, implied) {
        Some(chain) => Ok(chain),
        None => unreachable!(),
    }
}
