ghost use Rattle.std.specs.Prelude.{◌≡◌, All, IfOk, IfErr};
ghost use Rattle.template_core.specs.Constraints.{IsWellMade, IsWellMadeFor};
ghost use Rattle.chain_make.specs.Chains.{AreLinks, IsNext};

use crate::copy::link_of;
use crate::entries::triples;
use crate::product::Product;
use crate::search::states_beside;
use chain_cert::Link;
use decl_base::Refusal;
use dfa_core::Dfa;
use dfa_minimise::least;
use dfa_product::meet;
use std::alloc::Global;
use template_core::Constraint;
use template_set::table_of;

/// The most states of an automaton whose pairs with the at most twelve states of a table have numbers of 32 bits. A list that tells at most 65,536 traces
/// apart has an automaton far below it, and for one that is above it there is no memory.
pub(crate) const MOST_STATES: u32 = 357_913_941;

/// An automaton, and the link that it is written as.
#[derive(Drop)]
struct Next {
    dfa: Dfa,
    link: Link,
}

/// The link after an automaton: the least automaton of what it accepts and the constraint keeps.
fn next_link(alloc: Global, dfa: &Dfa, constraint: &Constraint) -> Result<Next, Refusal>
    requires start { dfa.now.start ≡ 0 }
    requires made { IsWellMade constraint.now.kind constraint.now.first constraint.now.second }
    ensures ok { IfOk result (λ next. IsNext dfa.now constraint.now next.dfa next.link) }
    ensures err { IfErr result (λ e. e ≡ Refusal.Memory) }
{
    if dfa.states() > MOST_STATES {
        return Err(Refusal::Memory);
    }
    let table = table_of(constraint.kind);
    let both = meet(alloc, dfa, &table, constraint)?;
    let next = least(alloc, &both)?;
    let product = Product {
        dfa,
        table: &table,
        constraint,
    };
    let beside = states_beside(alloc, &product, &next)?;
    let triples = triples(alloc, &beside, table.states as u32)?;
    let link = link_of(alloc, &next, triples)?;
    Ok(Next { dfa: next, link })
}

/// A link for each constraint of a model, and the automaton of the last one.
#[derive(Drop)]
pub(crate) struct Links {
    pub links: Vec<Link>,
    pub last: Dfa,
}

/// The links of a model.
pub(crate) fn links_of(alloc: Global, model: &[Constraint], symbols: u32) -> Result<Links, Refusal>
    requires made { All (IsWellMadeFor symbols) model.now }
    ensures ok { IfOk result (λ l. AreLinks symbols model.now l.links.items l.last) }
    ensures err { IfErr result (λ e. e ≡ Refusal.Memory) }
{
    let mut links = Vec::new(alloc);
    let mut last = Dfa::everything(alloc, symbols)?;
    for constraint in model {
        let Next { dfa, link } = next_link(alloc, &last, constraint)?;
        links.push(link)?;
        last = dfa;
    }
    Ok(Links { links, last })
}
