ghost use Rattle.std.specs.Prelude.{◌≡◌, ◌↔◌, ◌<◌, ◌≤◌, ℕ, All, IfNone, IfSome, IsTrue, length};
ghost use Rattle.template_core.specs.Constraints.{IsWellMade, IsWellMadeFor};
ghost use Rattle.chain_cert.specs.Forms.{FitLinks, FitsLink, FitsPairs, IsChain, left, middle};
ghost use Rattle.chain_cert.specs.Links.{before, last, link_at};
ghost use Rattle.chain_cert.specs.Parts.{chain_parts, constraint_at, dropped_at, list_at};

use crate::before::states_before;
use crate::tables::table_for;
use crate::{Claim, Dropped, Link, Pairs};
use std::marker::Model;
use template_core::Constraint;

/// A link for each constraint of a claim, and pairs for each dropped one.
#[derive(Debug, Drop)]
pub struct Chain {
    links: Vec<Link>,
    implied: Vec<Pairs>,
}

impl Model for Chain {
    ghost use Rattle.chain_cert.specs.Parts.{ChainParts, chain_parts};

    ghost Value = { ChainParts };

    ghost view = { λ c. chain_parts c.links.items c.implied.items };
}

impl Chain {
    /// The chain of these parts, or None where they haven't the form of one for the claim: links that fit, and pairs for each dropped
    /// constraint, whose first is a state of the last link, or 0 where there is none, and whose second is one of the constraint's table.
    pub fn of(claim: &Claim, links: Vec<Link>, implied: Vec<Pairs>) -> Option<Chain>
        ensures some { IfSome result (λ chain. chain ≡ chain_parts links.items implied.items) }
        ensures form { IfSome result (IsChain claim.now) }
        ensures none { IfNone result (IsChain claim.now (chain_parts links.items implied.items) → ⊥) }
    {
        if !links_fit(claim, &links) || implied.len() != claim.dropped().len() {
            return None;
        }
        if !all_pairs_fit(claim.dropped(), &links, &implied, claim.symbols()) {
            return None;
        }
        Some(Chain { links, implied })
    }

    /// The links, in the order of the constraints.
    pub fn links(&self) -> &[Link]
        ensures { result.now ≡ self.now.links }
    {
        &self.links
    }

    /// The pairs, in the order of the dropped constraints.
    pub fn implied(&self) -> &[Pairs]
        ensures { result.now ≡ self.now.implied }
    {
        &self.implied
    }
}

/// Whether the links have the form of those of a chain for the claim: one for each constraint, with a column for each symbol,
/// and triples that begin at states of the automaton before and of the constraint's table. Before the first link that automaton has
/// one state. A reader asks this before it reads pairs.
pub fn links_fit(claim: &Claim, links: &[Link]) -> bool
    ensures { IsTrue result ↔ FitLinks claim.now links.now }
{
    links.len() == claim.model().len() && each_link_fits(claim.model(), links, claim.symbols())
}

/// Whether the first state of each is below one number, and the second below another.
fn begin_below<const N: usize>(pairs: &[[u32; N]], states: usize, table_states: u8) -> bool
    requires { 2 ≤ N }
    ensures { IsTrue result ↔ All (λ pair. (left pair < states) × (middle pair < table_states)) pairs.now }
{
    for pair in pairs {
        if pair[0] as usize >= states || pair[1] >= table_states as u32 {
            return false;
        }
    }
    true
}

/// Whether a link has a column for each symbol, and triples that begin at states of the automaton before a place and of the table.
fn link_fits(
    links: &[Link],
    place: usize,
    constraint: &Constraint,
    link: &Link,
    symbols: u32,
) -> bool
    requires there { place ≤ length links.now }
    requires made { IsWellMade constraint.now.kind constraint.now.first constraint.now.second }
    ensures { IsTrue result ↔ FitsLink symbols (before links.now place) constraint.now.kind link.now }
{
    let table = table_for(constraint);
    link.columns().len() == symbols as usize
        && begin_below(link.pairs(), states_before(links, place), table.states)
}

/// Whether each link fits.
fn each_link_fits(model: &[Constraint], links: &[Link], symbols: u32) -> bool
    requires one_each { length links.now ≡ length model.now }
    requires made { All (IsWellMadeFor symbols) model.now }
    ensures { IsTrue result ↔ ((i : ℕ) → i < length model.now → FitsLink symbols (before links.now i) (constraint_at model.now i).kind (link_at links.now i)) }
{
    for (place, constraint) in model.iter().enumerate() {
        if !link_fits(links, place, constraint, &links[place], symbols) {
            return false;
        }
    }
    true
}

/// Whether the pairs are of states of the last link and of the table.
fn pairs_fit(links: &[Link], pairs: &Pairs, constraint: &Constraint) -> bool
    requires { IsWellMade constraint.now.kind constraint.now.first constraint.now.second }
    ensures { IsTrue result ↔ FitsPairs (last links.now) constraint.now.kind pairs.now }
{
    let table = table_for(constraint);
    begin_below(
        pairs.pairs(),
        states_before(links, links.len()),
        table.states,
    )
}

/// Whether the pairs of each dropped constraint fit.
fn all_pairs_fit(dropped: &[Dropped], links: &[Link], implied: &[Pairs], symbols: u32) -> bool
    requires one_each { length implied.now ≡ length dropped.now }
    requires made { All (λ d. IsWellMadeFor symbols d.constraint) dropped.now }
    ensures { IsTrue result ↔ ((i : ℕ) → i < length dropped.now
        → FitsPairs (last links.now) (dropped_at dropped.now i).constraint.kind (list_at implied.now i)) }
{
    for (place, item) in dropped.iter().enumerate() {
        if !pairs_fit(links, &implied[place], &item.constraint) {
            return false;
        }
    }
    true
}
