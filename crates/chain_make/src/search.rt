ghost use Rattle.std.specs.Prelude.{◌≡◌, ◌<◌, ◌∷◌, [], None, Some, replicate, IfOk, IfErr, length, slice_set, vec_len};
ghost use Rattle.dfa_core.specs.Automaton.{steps_of};
ghost use Rattle.chain_make.specs.Beside.{AreBeside, LeadsToOne};
ghost use Rattle.chain_make.specs.Searching.{Adds, Follows, IsSearch, found_of};

use decl_base::Refusal;
use dfa_core::{Dfa, System};
use std::alloc::Global;

/// A state that a trace leads to, and the state of another automaton that it leads to.
#[derive(Clone, Copy, Drop)]
pub struct Found {
    state: u32,
    beside: u32,
}

/// A search for the states that traces lead to.
#[derive(Drop)]
pub struct Search {
    /// For each state that was found the one beside it.
    beside: Vec<Option<u32>>,
    /// What was found, in the order in which it was.
    found: Vec<Found>,
}

impl Search {
    /// A search that has found the start alone.
    fn at(alloc: Global, states: u32, state: u32, beside: u32) -> Result<Search, Refusal>
        requires { state < states }
        ensures beside { IfOk result (λ s. s.beside.items ≡ slice_set (replicate states None) state (Some beside)) }
        ensures found { IfOk result (λ s. s.found.items ≡ found_of state beside ∷ []) }
        ensures err { IfErr result (λ e. e ≡ Refusal.Memory) }
    {
        let mut all = vec![in alloc; None; states as usize]?;
        all[state as usize] = Some(beside);
        Ok(Search {
            beside: all,
            found: vec![in alloc; Found { state, beside }]?,
        })
    }

    /// Takes a state with the one beside it where it wasn't found before.
    fn add(&mut self, state: u32, beside: u32) -> Result<(), Refusal>
        requires { state < vec_len self.old.beside }
        ensures ok { IfOk result (λ _. Adds self.old self.new state beside) }
        ensures err { IfErr result (λ e. e ≡ Refusal.Memory) }
    {
        match self.beside[state as usize] {
            Some(_) => Ok(()),
            None => {
                self.found.push(Found { state, beside })?;
                self.beside[state as usize] = Some(beside);
                Ok(())
            }
        }
    }

    /// Follows the step by a symbol from what was found at a place.
    fn follow<S: System>(
        &mut self,
        system: &S,
        dfa: &Dfa,
        at: usize,
        symbol: u32,
    ) -> Result<(), Refusal>
        requires same_symbols { dfa.now.symbols ≡ (S.steps system.now).symbols }
        requires one { LeadsToOne (S.steps system.now) (steps_of dfa.now) }
        requires search { IsSearch (S.steps system.now) (steps_of dfa.now) self.old.beside.items self.old.found.items }
        requires at { at < length self.old.found.items }
        requires symbol { symbol < dfa.now.symbols }
        ensures ok { IfOk result (λ _. Follows (S.steps system.now) (steps_of dfa.now) self.old self.new at symbol) }
        ensures err { IfErr result (λ e. e ≡ Refusal.Memory) }
    {
        let found = self.found[at];
        let state = system.step(found.state, symbol);
        let beside = dfa.step(found.beside, symbol);
        self.add(state, beside)
    }
}

/// For each state of the system that a trace leads to, the state of the automaton that it leads to.
pub(crate) fn states_beside<S: System>(
    alloc: Global,
    system: &S,
    dfa: &Dfa,
) -> Result<Vec<Option<u32>>, Refusal>
    requires same_symbols { dfa.now.symbols ≡ (S.steps system.now).symbols }
    requires one { LeadsToOne (S.steps system.now) (steps_of dfa.now) }
    ensures ok { IfOk result (λ beside. AreBeside (S.steps system.now) (steps_of dfa.now) beside.items) }
    ensures err { IfErr result (λ e. e ≡ Refusal.Memory) }
{
    let mut search = Search::at(alloc, system.states(), system.start(), dfa.start())?;
    let mut at = 0;
    'rows: while at < search.found.len() {
        'steps: for symbol in 0..dfa.symbols() {
            search.follow(system, dfa, at, symbol)?;
        }
        at += 1;
    }
    let Search { beside, found: _ } = search;
    Ok(beside)
}
