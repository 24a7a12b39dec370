ghost use Rattle.std.specs.Prelude.{◌≡◌, ◌<◌, ◌+◌, ◌*◌, ◌^◌, ◌∷◌, [], ℕ, replicate, None, Some, IfOk, IfErr, length, slice_index, slice_set, vec_len};
ghost use Rattle.dfa_core.specs.Searching.{Follows, IsOn, Numbers, path};

use crate::System;
use decl_base::{Refusal, Trace};
use std::alloc::Global;

/// A breadth-first search: the states that were found, numbered in the order in which they were found.
#[derive(Drop)]
pub struct Search {
    /// The states by their numbers.
    pub states: Vec<u32>,
    /// For each number the place of the step by which it was found. Steps go row after row: a place is a number times the number of symbols, and a
    /// symbol. That of number 0 has no meaning.
    pub found: Vec<usize>,
    /// The number of each state that was found.
    pub numbers: Vec<Option<u32>>,
}

impl Search {
    /// A search that has found its start alone.
    pub fn at(alloc: Global, states: u32, start: u32) -> Result<Search, Refusal>
        requires { start < states }
        ensures states { IfOk result (λ s. s.states.items ≡ start ∷ []) }
        ensures found { IfOk result (λ s. s.found.items ≡ 0 ∷ []) }
        ensures numbers { IfOk result (λ s. s.numbers.items ≡ slice_set (replicate states None) start (Some 0)) }
        ensures err { IfErr result (λ e. e ≡ Refusal.Memory) }
    {
        let mut numbers = vec![in alloc; None; states as usize]?;
        numbers[start as usize] = Some(0);
        Ok(Search {
            states: vec![in alloc; start]?,
            found: vec![in alloc; 0]?,
            numbers,
        })
    }

    /// The number of a state, to which the step at the place leads. A state without a number takes the next one.
    fn number_of(&mut self, state: u32, place: usize) -> Result<u32, Refusal>
        requires state { state < vec_len self.old.numbers }
        requires few { vec_len self.old.states < 2 ^ 32 }
        ensures ok { IfOk result (Numbers self.old self.new state place) }
        ensures err { IfErr result (λ e. e ≡ Refusal.Memory) }
    {
        match self.numbers[state as usize] {
            Some(number) => Ok(number),
            None => {
                let number = self.states.len() as u32;
                self.states.push(state)?;
                self.found.push(place)?;
                self.numbers[state as usize] = Some(number);
                Ok(number)
            }
        }
    }

    /// Follows the step from a numbered state by a symbol: the number of the state that it leads to. The steps are followed row after row, and the
    /// place of this one is how many were before it.
    pub fn follow<S: System>(
        &mut self,
        system: &S,
        at: usize,
        symbol: u32,
        place: usize,
    ) -> Result<u32, Refusal>
        requires on { IsOn (S.steps system.now) self.old place }
        requires place { place ≡ at * (S.steps system.now).symbols + symbol }
        requires at { at < length self.old.states.items }
        requires symbol { symbol < (S.steps system.now).symbols }
        ensures ok { IfOk result (Follows (S.steps system.now) self.old self.new place at symbol) }
        ensures err { IfErr result (λ e. e ≡ Refusal.Memory) }
    {
        let state = system.step(self.states[at], symbol);
        self.number_of(state, place)
    }

    /// The symbols by which a number was found, from the start on.
    pub fn trace_to(&self, alloc: Global, symbols: u32, number: u32) -> Result<Trace, Refusal>
        requires there { number < vec_len self.now.found }
        requires earlier { (t : ℕ) → 0 < t → t < vec_len self.now.found → slice_index self.now.found.items t < t * symbols }
        ensures ok { IfOk result (λ t. t ≡ path symbols self.now.found.items number number) }
        ensures err { IfErr result (λ e. e ≡ Refusal.Memory) }
    {
        let mut trace = Vec::new(alloc);
        let mut at = number as usize;
        while at > 0 {
            let place = self.found[at];
            trace.push((place % symbols as usize) as u32)?;
            at = place / symbols as usize;
        }
        trace.reverse();
        Trace::of(alloc, &trace)
    }
}
