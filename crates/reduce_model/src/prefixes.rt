ghost use Rattle.std.specs.List.{HoldsAt};
ghost use Rattle.std.specs.Prelude.{◌≡◌, ◌+◌, ◌<◌, ◌≤◌, ◌^◌, length, OnOk, IfOk, IfErr};
ghost use Rattle.decl_base.specs.Limits.{greatest_state_limit};
ghost use Rattle.dfa_core.specs.Automaton.{state_count};
ghost use Rattle.template_core.specs.Constraints.{IsWellMade};
ghost use Rattle.reduce_model.specs.Passes.{IsEmptyPrefix, IsFirstPrefixAlone, IsKeptBehind, IsLonger};
ghost use Rattle.reduce_model.specs.declared.prefixes.Prefix.{Prefix as PrefixOf};

use decl_base::Refusal;
use dfa_core::Dfa;
use list_dfa::extended;
use std::alloc::{AllocError, Global};
use template_core::Constraint;

/// Of the first candidates those that the first pass leaves, carried as an automaton of the traces that keep them.
#[derive(Drop)]
pub(crate) struct Prefix {
    pub dfa: Dfa,
    /// They stand before this place.
    pub place: usize,
    /// So many of the candidates before it are left.
    pub length: u32,
}

impl Prefix {
    /// The prefix of no candidate.
    pub fn empty(alloc: Global, symbols: u32) -> Result<Prefix, Refusal>
        ensures ok { IfOk result (IsEmptyPrefix symbols) }
        ensures err { IfErr result (λ e. e ≡ Refusal.Memory) }
    {
        Ok(Prefix {
            dfa: Dfa::everything(alloc, symbols)?,
            place: 0,
            length: 0,
        })
    }

    /// The prefix with one constraint more, or None where it is wide.
    pub fn longer(
        &self,
        alloc: Global,
        constraint: &Constraint,
        states: u64,
        last: &mut u32,
    ) -> Result<Option<Prefix>, Refusal>
        requires made { IsWellMade constraint.now.kind constraint.now.first constraint.now.second }
        requires few { state_count self.now.dfa ≤ greatest_state_limit }
        requires room { self.now.length + 1 < 2 ^ 32 }
        ensures ok { IfOk result (IsLonger states self.now constraint.now) }
        ensures err { IfErr result (λ e. e ≡ Refusal.Memory) }
    {
        match extended(alloc, &self.dfa, constraint, states, last)? {
            Some(dfa) => Ok(Some(Prefix {
                dfa,
                place: self.place,
                length: self.length + 1,
            })),
            None => Ok(None),
        }
    }
}

/// The prefix of no candidate alone.
pub(crate) fn first_prefix(alloc: Global, symbols: u32) -> Result<Vec<Prefix>, Refusal>
    ensures ok { IfOk result (λ prefixes. IsFirstPrefixAlone symbols prefixes.items) }
    ensures err { IfErr result (λ e. e ≡ Refusal.Memory) }
{
    let mut prefixes = Vec::new(alloc);
    prefixes.push(Prefix::empty(alloc, symbols)?)?;
    Ok(prefixes)
}

/// Puts a prefix behind the others, where its table has no more entries than are spare.
pub(crate) fn keep(
    prefixes: &mut Vec<Prefix>,
    spare: &mut u64,
    dfa: Dfa,
    place: usize,
    length: u32,
) -> Result<(), AllocError>
    ensures { OnOk result (IsKeptBehind prefixes.old.items (record { dfa = dfa; place = place; length = length }) prefixes.new.items) }
{
    let entries = (dfa.states() as u64).saturating_mul(dfa.columns() as u64);
    if entries <= *spare {
        *spare -= entries;
        prefixes.push(Prefix { dfa, place, length })?;
    }
    Ok(())
}

/// The last of the prefixes whose candidates all stand before a place and are no more than a number. The first has none.
pub(crate) fn longest(prefixes: &[Prefix], place: usize, most: u32) -> usize
    requires some { 0 < length prefixes.now }
    requires first { HoldsAt (λ (prefix : PrefixOf). (prefix.place ≡ 0) × (prefix.length ≡ 0)) prefixes.now 0 }
    ensures within { result < length prefixes.now }
    ensures fits { HoldsAt (λ (prefix : PrefixOf). (prefix.place ≤ place) × (prefix.length ≤ most)) prefixes.now result }
{
    let mut last = prefixes.len() - 1;
    while prefixes[last].place > place || prefixes[last].length > most {
        last -= 1;
    }
    last
}
