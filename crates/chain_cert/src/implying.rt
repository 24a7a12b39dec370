ghost use Rattle.std.specs.Prelude.{◌≡◌, ◌↔◌, ◌<◌, ◌≤◌, ℕ, true, not, All, IsTrue, length};
ghost use Rattle.std.specs.Bool.{OnTrue};
ghost use Rattle.decl_base.specs.Limits.{standard};
ghost use Rattle.template_core.specs.Constraints.{IsWellMade, IsWellMadeFor};
ghost use Rattle.template_core.specs.Tables.{IsTable, accepts_at};
ghost use Rattle.chain_cert.specs.Alike.{HasEarlier};
ghost use Rattle.chain_cert.specs.Checks.{ArePairsClosedUnder, Decides, IsDecided, IsFirstFailure, step_pair};
ghost use Rattle.chain_cert.specs.Forms.{FitsPairs, Holds, IsAscending, left, middle};
ghost use Rattle.chain_cert.specs.Links.{is_accepting, last, state_count};
ghost use Rattle.chain_cert.specs.Parts.{dropped_at, list_at};

use crate::before::{accepts_before, same_before, step_before};
use crate::forms::has;
use crate::tables::table_for;
use crate::{Dropped, Link, Pairs};
use template_core::{Constraint, Table, class_of};

/// A dropped constraint behind a chain: its pairs are over the states of the last link and of a table.
#[derive(Drop)]
struct Decision<'a> {
    links: &'a [Link],
    dropped: &'a Dropped,
    table: &'a Table,
    pairs: &'a [[u32; 2]],
    symbols: u32,
    ghost ascending: { IsAscending pairs.now },
    ghost table_is: { IsTable table.now },
    ghost columns: { All (λ link. length link.columns ≡ symbols) links.now },
    ghost left_below: { All (λ pair. left pair < state_count (last links.now)) pairs.now },
    ghost middle_below: { All (λ pair. middle pair < table.now.states) pairs.now },
}

impl Decision<'_> {
    /// Whether the table accepts wherever the last link does, or rejects there, for a conflict.
    fn decides_acceptance(&self) -> bool
        ensures { IsTrue result ↔ All (λ pair. is_accepting (last self.now.links.now) (left pair) ≡ true
            → accepts_at self.now.table.now (middle pair) ≡ not self.now.dropped.now.conflict) self.now.pairs.now }
    {
        for pair in self.pairs {
            if accepts_before(self.links, self.links.len(), pair[0])
                && self.table.accepts_at(pair[1] as u8) == self.dropped.conflict
            {
                return false;
            }
        }
        true
    }

    /// Whether the pairs hold one stepped by the symbol.
    fn holds_stepped(&self, symbol: u32, pair: &[u32; 2]) -> bool
        requires symbol { symbol < self.now.symbols }
        requires left { left pair.now < state_count (last self.now.links.now) }
        requires middle { middle pair.now < self.now.table.now.states }
        ensures { IsTrue result ↔ Holds self.now.pairs.now
            (step_pair (last self.now.links.now) self.now.table.now self.now.dropped.now.constraint symbol pair.now) }
    {
        let class = class_of(&self.dropped.constraint, symbol);
        let stepped = [
            step_before(self.links, self.links.len(), pair[0], symbol),
            self.table.step(pair[1] as u8, class) as u32,
        ];
        has(self.pairs, &stepped)
    }

    /// Whether the pairs hold each of them stepped by the symbol.
    fn is_closed_by(&self, symbol: u32) -> bool
        requires { symbol < self.now.symbols }
        ensures { IsTrue result ↔ ArePairsClosedUnder (last self.now.links.now) self.now.dropped.now.constraint self.now.table.now self.now.pairs.now symbol }
    {
        for pair in self.pairs {
            if !self.holds_stepped(symbol, pair) {
                return false;
            }
        }
        true
    }

    /// Whether an earlier symbol steps alike in the last link and in the table.
    fn has_earlier(&self, symbol: u32) -> bool
        requires { symbol < self.now.symbols }
        ensures { OnTrue result (HasEarlier (last self.now.links.now) self.now.dropped.now.constraint (last self.now.links.now) symbol) }
    {
        let class = class_of(&self.dropped.constraint, symbol);
        for earlier in 0..symbol {
            if class_of(&self.dropped.constraint, earlier) == class
                && same_before(self.links, self.links.len(), earlier, symbol)
            {
                return true;
            }
        }
        false
    }

    /// Whether the pairs hold each of them stepped by the symbol, where they hold each of them stepped by an earlier one.
    /// Symbols that step alike are looked at once, where looking for them is no more work than a look at the pairs.
    fn follows(&self, symbol: u32) -> bool
        requires symbol { symbol < self.now.symbols }
        requires earlier { (s : ℕ) → s < symbol
            → ArePairsClosedUnder (last self.now.links.now) self.now.dropped.now.constraint self.now.table.now self.now.pairs.now s }
        ensures { IsTrue result ↔ ArePairsClosedUnder (last self.now.links.now) self.now.dropped.now.constraint self.now.table.now self.now.pairs.now symbol }
    {
        let few = symbol as usize <= self.pairs.len();
        if few && self.has_earlier(symbol) {
            return true;
        }
        self.is_closed_by(symbol)
    }

    /// Whether the pairs hold each of them stepped by each symbol.
    fn is_closed(&self) -> bool
        ensures { IsTrue result ↔ ((s : ℕ) → s < self.now.symbols
            → ArePairsClosedUnder (last self.now.links.now) self.now.dropped.now.constraint self.now.table.now self.now.pairs.now s) }
    {
        for symbol in 0..self.symbols {
            if !self.follows(symbol) {
                return false;
            }
        }
        true
    }

    /// Whether the pairs relate the last link to the table, and show what the dropped constraint is.
    fn decides(&self) -> bool
        ensures { IsTrue result ↔ Decides self.now.symbols (last self.now.links.now) self.now.dropped.now self.now.table.now self.now.pairs.now }
    {
        has(self.pairs, &[0, self.table.start as u32])
            && self.decides_acceptance()
            && self.is_closed()
    }
}

/// Whether pairs relate the last link to the table of the constraint's template, and show what the dropped constraint is.
fn is_decided(links: &[Link], dropped: &Dropped, pairs: &Pairs, symbols: u32) -> bool
    requires made { IsWellMade dropped.now.constraint.kind dropped.now.constraint.first dropped.now.constraint.second }
    requires columns { All (λ link. length link.columns ≡ symbols) links.now }
    requires fits { FitsPairs (last links.now) dropped.now.constraint.kind pairs.now }
    ensures { IsTrue result ↔ IsDecided symbols (last links.now) dropped.now pairs.now }
{
    let table = table_for(&dropped.constraint);
    let decision = Decision {
        links,
        dropped,
        table: &table,
        pairs: pairs.pairs(),
        symbols,
    };
    decision.decides()
}

/// The number of the first dropped constraint that its pairs don't decide.
pub(crate) fn first_undecided(
    dropped: &[Dropped],
    links: &[Link],
    implied: &[Pairs],
    symbols: u32,
) -> Option<u32>
    requires made { All (λ d. IsWellMadeFor symbols d.constraint) dropped.now }
    requires few { length dropped.now ≤ standard.candidates }
    requires one_each { length implied.now ≡ length dropped.now }
    requires columns { All (λ link. length link.columns ≡ symbols) links.now }
    requires fit { (i : ℕ) → i < length dropped.now → FitsPairs (last links.now) (dropped_at dropped.now i).constraint.kind (list_at implied.now i) }
    ensures { IsFirstFailure (λ i. IsDecided symbols (last links.now) (dropped_at dropped.now i) (list_at implied.now i)) (length dropped.now) result }
{
    for (place, item) in dropped.iter().enumerate() {
        if !is_decided(links, item, &implied[place], symbols) {
            return Some(place as u32 + 1);
        }
    }
    None
}
