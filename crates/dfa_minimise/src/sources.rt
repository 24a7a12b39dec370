ghost use Rattle.std.specs.Prelude.{◌≡◌, ◌<◌, ℕ, length, slice_index, IfOk};
ghost use Rattle.dfa_core.specs.Automaton.{state_count};
ghost use Rattle.dfa_minimise.specs.Classes.{LeadTo};
ghost use Rattle.dfa_minimise.specs.Preimages.{AreSources};

use dfa_core::Dfa;
use std::alloc::{AllocError, Global};

/// For each column and state the states from which the column leads there: the last of them, and before each of them another. The states of a
/// column stand together.
#[derive(Drop)]
pub(crate) struct Sources<'a> {
    dfa: &'a Dfa,
    last: Vec<Option<u32>>,
    before: Vec<Option<u32>>,
}

impl<'a> Sources<'a> {
    /// From where each column of an automaton leads to each of its states.
    pub fn of(alloc: Global, dfa: &'a Dfa) -> Result<Sources<'a>, AllocError>
        ensures sources { IfOk result (λ s. AreSources dfa.now s.last.items s.before.items) }
        ensures dfa { IfOk result (λ s. s.dfa.now ≡ dfa.now) }
    {
        let states = dfa.states() as usize;
        let cells = dfa.columns() as usize * states;
        let mut last = vec![in alloc; None; cells]?;
        let mut before = vec![in alloc; None; cells]?;
        'columns: for column in 0..dfa.columns() {
            let row = column as usize * states;
            'states: for state in 0..dfa.states() {
                let target = row + dfa.step_column(state, column) as usize;
                before[row + state as usize] = last[target];
                last[target] = Some(state);
            }
        }
        Ok(Sources { dfa, last, before })
    }

    /// The states from which the column leads to one of the targets.
    pub fn leading_to(
        &self,
        alloc: Global,
        targets: &[u32],
        column: u32,
    ) -> Result<Vec<u32>, AllocError>
        requires sources { AreSources self.now.dfa.now self.now.last.items self.now.before.items }
        requires column { column < self.now.dfa.now.width }
        requires targets { (k : ℕ) → k < length targets.now → slice_index targets.now k < state_count self.now.dfa.now }
        ensures { IfOk result (λ sources. LeadTo self.now.dfa.now column targets.now sources.items) }
    {
        let row = column as usize * self.dfa.states() as usize;
        let mut sources = Vec::new(alloc);
        'targets: for target in targets {
            let mut next = self.last[row + *target as usize];
            'sources: while let Some(state) = next {
                sources.push(state)?;
                next = self.before[row + state as usize];
            }
        }
        Ok(sources)
    }
}
