ghost use Rattle.std.specs.Prelude.{◌≡◌, ◌↔◌, ◌<◌, ◌≤◌, ◌∷◌, [], ℕ, true, All, IsTrue, length};
ghost use Rattle.std.specs.Bool.{OnTrue};
ghost use Rattle.decl_base.specs.Limits.{standard};
ghost use Rattle.template_core.specs.Constraints.{IsWellMade, IsWellMadeFor};
ghost use Rattle.template_core.specs.Tables.{IsTable, accepts_at};
ghost use Rattle.chain_cert.specs.Alike.{HasEarlier};
ghost use Rattle.chain_cert.specs.Checks.{IsClosedUnder, IsFirstFailure, IsRelated, Relates, step_triple};
ghost use Rattle.chain_cert.specs.Forms.{FitsLink, Holds, left, middle, right};
ghost use Rattle.chain_cert.specs.Links.{before, is_accepting, link_at, state_count};
ghost use Rattle.chain_cert.specs.Parts.{constraint_at};

use crate::Link;
use crate::before::{accepts_before, same_before, step_before};
use crate::forms::has;
use crate::tables::table_for;
use template_core::{Constraint, Table, class_of};

/// A link in its chain: its triples are over the states of the automaton before its place, of a table and of its own.
#[derive(Drop)]
struct Relation<'a> {
    links: &'a [Link],
    place: usize,
    constraint: &'a Constraint,
    table: &'a Table,
    link: &'a Link,
    symbols: u32,
    ghost there: { place ≤ length links.now },
    ghost table_is: { IsTable table.now },
    ghost columns: { All (λ link. length link.columns ≡ symbols) links.now },
    ghost column: { length link.now.columns ≡ symbols },
    ghost left_below: { All (λ triple. left triple < state_count (before links.now place)) link.now.pairs },
    ghost middle_below: { All (λ triple. middle triple < table.now.states) link.now.pairs },
}

impl Relation<'_> {
    /// Whether the triples hold the starts.
    fn holds_start(&self) -> bool
        ensures { IsTrue result ↔ Holds self.now.link.now.pairs (0 ∷ self.now.table.now.start ∷ 0 ∷ []) }
    {
        has(self.link.pairs(), &[0, self.table.start as u32, 0])
    }

    /// Whether the link accepts wherever the automaton before it and the table do.
    fn accepts_where_both(&self) -> bool
        ensures { IsTrue result ↔ All (λ triple. is_accepting (before self.now.links.now self.now.place) (left triple) ≡ true
            → accepts_at self.now.table.now (middle triple) ≡ true → is_accepting self.now.link.now (right triple) ≡ true) self.now.link.now.pairs }
    {
        for triple in self.link.pairs() {
            if accepts_before(self.links, self.place, triple[0])
                && self.table.accepts_at(triple[1] as u8)
                && !self.link.is_accepting(triple[2])
            {
                return false;
            }
        }
        true
    }

    /// Whether the triples hold one stepped by the symbol.
    fn holds_stepped(&self, symbol: u32, triple: &[u32; 3]) -> bool
        requires symbol { symbol < self.now.symbols }
        requires left { left triple.now < state_count (before self.now.links.now self.now.place) }
        requires middle { middle triple.now < self.now.table.now.states }
        requires right { right triple.now < state_count self.now.link.now }
        ensures { IsTrue result ↔ Holds self.now.link.now.pairs
            (step_triple (before self.now.links.now self.now.place) self.now.table.now self.now.constraint.now self.now.link.now symbol triple.now) }
    {
        let stepped = [
            step_before(self.links, self.place, triple[0], symbol),
            self.table
                .step(triple[1] as u8, class_of(self.constraint, symbol)) as u32,
            self.link.step(triple[2], symbol),
        ];
        has(self.link.pairs(), &stepped)
    }

    /// Whether the triples hold each of them stepped by the symbol.
    fn is_closed_by(&self, symbol: u32) -> bool
        requires { symbol < self.now.symbols }
        ensures { IsTrue result ↔ IsClosedUnder (before self.now.links.now self.now.place) self.now.constraint.now self.now.table.now self.now.link.now symbol }
    {
        for triple in self.link.pairs() {
            if !self.holds_stepped(symbol, triple) {
                return false;
            }
        }
        true
    }

    /// Whether an earlier symbol steps alike in the automaton before the link, in the table and in the link.
    fn has_earlier(&self, symbol: u32) -> bool
        requires { symbol < self.now.symbols }
        ensures { OnTrue result (HasEarlier (before self.now.links.now self.now.place) self.now.constraint.now self.now.link.now symbol) }
    {
        let class = class_of(self.constraint, symbol);
        for earlier in 0..symbol {
            if class_of(self.constraint, earlier) == class
                && self.link.same_column(earlier, symbol)
                && same_before(self.links, self.place, earlier, symbol)
            {
                return true;
            }
        }
        false
    }

    /// Whether the triples hold each of them stepped by the symbol, where they hold each of them stepped by an earlier one.
    /// Symbols that step alike are looked at once, where looking for them is no more work than a look at the triples.
    fn follows(&self, symbol: u32) -> bool
        requires symbol { symbol < self.now.symbols }
        requires earlier { (s : ℕ) → s < symbol
            → IsClosedUnder (before self.now.links.now self.now.place) self.now.constraint.now self.now.table.now self.now.link.now s }
        ensures { IsTrue result ↔ IsClosedUnder (before self.now.links.now self.now.place) self.now.constraint.now self.now.table.now self.now.link.now symbol }
    {
        let few = symbol as usize <= self.link.pairs().len();
        if few && self.has_earlier(symbol) {
            return true;
        }
        self.is_closed_by(symbol)
    }

    /// Whether the triples hold each of them stepped by each symbol.
    fn is_closed(&self) -> bool
        ensures { IsTrue result ↔ ((s : ℕ) → s < self.now.symbols
            → IsClosedUnder (before self.now.links.now self.now.place) self.now.constraint.now self.now.table.now self.now.link.now s) }
    {
        for symbol in 0..self.symbols {
            if !self.follows(symbol) {
                return false;
            }
        }
        true
    }

    /// Whether the triples relate the automaton before the link and the table to it.
    fn relates(&self) -> bool
        ensures { IsTrue result ↔ Relates self.now.symbols (before self.now.links.now self.now.place) self.now.constraint.now self.now.table.now self.now.link.now }
    {
        self.holds_start() && self.accepts_where_both() && self.is_closed()
    }
}

/// Whether the triples of a link relate the automaton before a place and the table of the constraint's template to it.
fn is_related(
    links: &[Link],
    place: usize,
    constraint: &Constraint,
    link: &Link,
    symbols: u32,
) -> bool
    requires there { place ≤ length links.now }
    requires made { IsWellMade constraint.now.kind constraint.now.first constraint.now.second }
    requires columns { All (λ link. length link.columns ≡ symbols) links.now }
    requires fits { FitsLink symbols (before links.now place) constraint.now.kind link.now }
    ensures { IsTrue result ↔ IsRelated symbols (before links.now place) constraint.now link.now }
{
    let table = table_for(constraint);
    let relation = Relation {
        links,
        place,
        constraint,
        table: &table,
        link,
        symbols,
    };
    relation.relates()
}

/// The number of the first link that the automaton before it and its constraint don't lead to.
pub(crate) fn first_unrelated(model: &[Constraint], links: &[Link], symbols: u32) -> Option<u32>
    requires made { All (IsWellMadeFor symbols) model.now }
    requires few { length model.now ≤ standard.candidates }
    requires one_each { length links.now ≡ length model.now }
    requires columns { All (λ link. length link.columns ≡ symbols) links.now }
    requires fit { (i : ℕ) → i < length model.now → FitsLink symbols (before links.now i) (constraint_at model.now i).kind (link_at links.now i) }
    ensures { IsFirstFailure (λ i. IsRelated symbols (before links.now i) (constraint_at model.now i) (link_at links.now i)) (length model.now) result }
{
    for (place, constraint) in model.iter().enumerate() {
        if !is_related(links, place, constraint, &links[place], symbols) {
            return Some(place as u32 + 1);
        }
    }
    None
}
