ghost use Rattle.std.specs.Prelude.{◌≡◌, ◌<◌, ◌≤◌, length, IfOk, IfErr, MatchOption};
ghost use Rattle.dfa_core.specs.Automaton.{Accepts, IsBreadthFirst, SameLanguage, state_count};
ghost use Rattle.dfa_core.specs.Columns.{AreColumns};
ghost use Rattle.dfa_minimise.specs.Classes.{merged, quotient};
ghost use Rattle.dfa_minimise.specs.Least.{HasDistinctColumns, IsLeast, IsLeastWithin};
ghost use Rattle.dfa_minimise.specs.Partitions.{IsTidy, members_of};
ghost use Rattle.dfa_minimise.specs.Wide.{IsWide};

use crate::alike::alike_columns;
use crate::refinable::Refinable;
use crate::worklist::equivalent_states;
use decl_base::Refusal;
use dfa_core::{Columned, Dfa, System, reachable};
use std::alloc::Global;

/// The least automaton of the same language, with its states in breadth-first order. States that aren't reached, and columns that have no symbol,
/// are dropped before the others are compared.
pub fn least(alloc: Global, dfa: &Dfa) -> Result<Dfa, Refusal>
    ensures language { IfOk result (λ r. SameLanguage r dfa.now) }
    ensures least { IfOk result IsLeast }
    ensures order { IfOk result IsBreadthFirst }
    ensures columns { IfOk result (λ r. r.width ≤ dfa.now.width) }
    ensures distinct { IfOk result HasDistinctColumns }
    ensures err { IfErr result (λ e. e ≡ Refusal.Memory) }
{
    match least_within(alloc, dfa, dfa.states() as u64)? {
        Some(least) => Ok(least),
        None => unreachable!(),
    }
}

/// The least automaton of the same language, as `least` gives it, or None where it has more states than the limit. That is found as soon as
/// more states than the limit are told apart.
pub fn least_within(alloc: Global, dfa: &Dfa, limit: u64) -> Result<Option<Dfa>, Refusal>
    ensures ok { IfOk result (λ found. MatchOption found (IsWide dfa.now.symbols (Accepts dfa.now) limit) (IsLeastWithin limit dfa.now)) }
    ensures err { IfErr result (λ e. e ≡ Refusal.Memory) }
{
    let reached = reachable(alloc, dfa)?;
    let Some(partition) = equivalent_states(alloc, &reached, limit)? else {
        return Ok(None);
    };
    let groups = alike_columns(alloc, &reached, &partition)?;
    let quotient = Quotient {
        dfa: &reached,
        partition: &partition,
        groups: &groups,
    };
    let least = reachable(alloc, &quotient)?;
    Ok(Some(least))
}

/// An automaton whose states are the classes of another's, and whose columns are the groups of that one's columns.
#[derive(Drop)]
struct Quotient<'a> {
    dfa: &'a Dfa,
    partition: &'a Refinable,
    groups: &'a Refinable,
    ghost tidy: { IsTidy partition.now },
    ghost states: { length partition.now.class.items ≡ state_count dfa.now },
    ghost tidy_groups: { IsTidy groups.now },
    ghost columns: { 0 < dfa.now.width → length groups.now.class.items ≡ dfa.now.width },
    ghost alike: { AreColumns (quotient dfa.now partition.now.class.items (members_of partition.now)) (merged dfa.now groups.now) },
}

impl System for Quotient<'_> {
    ghost steps = { λ q. quotient q.dfa.now q.partition.now.class.items (members_of q.partition.now) };

    fn symbols(&self) -> u32 {
        self.dfa.symbols()
    }

    fn states(&self) -> u32 {
        self.partition.count()
    }

    fn start(&self) -> u32 {
        self.partition.class_of(self.dfa.start())
    }

    fn step(&self, state: u32, symbol: u32) -> u32 {
        let member = self.partition.member_of(state);
        self.partition.class_of(self.dfa.step(member, symbol))
    }

    fn accepting(&self, state: u32) -> bool {
        self.dfa.accepting(self.partition.member_of(state))
    }
}

impl Columned for Quotient<'_> {
    ghost columns = { λ q. merged q.dfa.now q.groups.now };

    fn columns(&self) -> usize {
        self.groups.count() as usize
    }

    fn column(&self, symbol: u32) -> usize {
        self.groups.class_of(self.dfa.column(symbol)) as usize
    }
}
