ghost use Rattle.std.specs.Prelude.{◌≡◌, ◌<◌, ◌↔◌, length, All, IfNone, IfSome, IsTrue};
ghost use Rattle.std.specs.Bool.{OnTrue};
ghost use Rattle.chain_cert.specs.Alike.{SameSteps};
ghost use Rattle.chain_cert.specs.Forms.{IsLink, right};
ghost use Rattle.chain_cert.specs.Links.{is_accepting, state_count, step as next_state};
ghost use Rattle.chain_cert.specs.Parts.{link_parts};

use crate::forms::{are_below, is_ascending};
use std::marker::Model;

/// An automaton, and triples of a state of the automaton before it, one of a constraint's table, and one of its own.
#[derive(Debug, Drop)]
pub struct Link {
    accepting: Vec<bool>,
    columns: Vec<u32>,
    next: Vec<u32>,
    width: usize,
    pairs: Vec<[u32; 3]>,
}

impl Model for Link {
    ghost use Rattle.std.specs.Prelude.{◌≡◌};
    ghost use Rattle.chain_cert.specs.Forms.{IsLink};
    ghost use Rattle.chain_cert.specs.Links.{width as width_of};
    ghost use Rattle.chain_cert.specs.Parts.{LinkParts, link_parts};

    ghost Value = { LinkParts };

    ghost view = { λ l. link_parts l.accepting.items l.columns.items l.next.items l.pairs.items };

    ghost invariant = { λ l. (l.width ≡ width_of (link_parts l.accepting.items l.columns.items l.next.items l.pairs.items)) × IsLink (link_parts l.accepting.items l.columns.items l.next.items l.pairs.items) };
}

impl Link {
    /// The link of these parts, or None where they alone haven't its form. There is at least one state, and `accepting` has a mark for each.
    /// `next` has a row of states for each state, one row after the other, all of one width; each number of `columns` is below that width.
    /// The triples are strictly ascending, and the third of each is a state.
    pub fn of(
        accepting: Vec<bool>,
        columns: Vec<u32>,
        next: Vec<u32>,
        pairs: Vec<[u32; 3]>,
    ) -> Option<Link>
        ensures some { IfSome result (λ link. link ≡ link_parts accepting.items columns.items next.items pairs.items) }
        ensures form { IfSome result IsLink }
        ensures none { IfNone result (IsLink (link_parts accepting.items columns.items next.items pairs.items) → ⊥) }
    {
        let states = accepting.len();
        if states == 0 {
            return None;
        }
        let width = next.len() / states;
        if next.len() != states * width {
            return None;
        }
        if !are_below(&next, states) || !are_below(&columns, width) {
            return None;
        }
        if !is_ascending(&pairs) || !end_below(&pairs, states) {
            return None;
        }
        Some(Link {
            accepting,
            columns,
            next,
            width,
            pairs,
        })
    }

    /// Which states accept.
    pub fn accepting(&self) -> &[bool]
        ensures value { result.now ≡ self.now.accepting }
        ensures form { IsLink self.now }
    {
        &self.accepting
    }

    /// The column of each symbol.
    pub fn columns(&self) -> &[u32]
        ensures { result.now ≡ self.now.columns }
    {
        &self.columns
    }

    /// The states after each state's columns, row after row.
    pub fn next(&self) -> &[u32]
        ensures { result.now ≡ self.now.next }
    {
        &self.next
    }

    /// The triples, strictly ascending: a state of the automaton before it, one of the constraint's table, and one of its own.
    pub fn pairs(&self) -> &[[u32; 3]]
        ensures value { result.now ≡ self.now.pairs }
        ensures form { IsLink self.now }
    {
        &self.pairs
    }

    /// The state after a symbol.
    #[tactic(auto, unfolding(crate::specs::Links::step))]
    pub(crate) fn step(&self, state: u32, symbol: u32) -> u32
        requires state { state < state_count self.now }
        requires symbol { symbol < length self.now.columns }
        ensures value { result ≡ next_state self.now state symbol }
        ensures bound { result < state_count self.now }
    {
        let column = self.columns[symbol as usize];
        self.next[state as usize * self.width + column as usize]
    }

    /// Whether two symbols have one column, so that they step alike.
    #[tactic(auto, unfolding(crate::specs::Links::step))]
    pub(crate) fn same_column(&self, x: u32, y: u32) -> bool
        requires first { x < length self.now.columns }
        requires second { y < length self.now.columns }
        ensures { OnTrue result (SameSteps self.now x y) }
    {
        self.columns[x as usize] == self.columns[y as usize]
    }

    /// Whether a trace that ends at the state is accepted.
    pub(crate) fn is_accepting(&self, state: u32) -> bool
        requires { state < state_count self.now }
        ensures { result ≡ is_accepting self.now state }
    {
        self.accepting[state as usize]
    }
}

/// Whether each triple ends at a state.
fn end_below(triples: &[[u32; 3]], states: usize) -> bool
    ensures { IsTrue result ↔ All (λ triple. right triple < states) triples.now }
{
    for triple in triples {
        if triple[2] as usize >= states {
            return false;
        }
    }
    true
}
