ghost use Rattle.std.specs.Prelude.{IfOk, MatchOption};
ghost use Rattle.dfa_core.specs.Columns.{HasSymbols};
ghost use Rattle.dfa_minimise.specs.Classes.{AreAccepting, AreClassesWithin, AreManyApart};

use crate::refinable::Refinable;
use crate::sources::Sources;
use dfa_core::Dfa;
use std::alloc::{AllocError, Global};

/// The states in classes: two are in one class exactly where no continuation tells them apart. None as soon as there are more classes than `most`.
pub(crate) fn equivalent_states(
    alloc: Global,
    dfa: &Dfa,
    most: u64,
) -> Result<Option<Refinable>, AllocError>
    requires { HasSymbols dfa.now }
    ensures { IfOk result (λ classes. MatchOption classes (AreManyApart dfa.now most) (AreClassesWithin dfa.now most)) }
{
    let sources = Sources::of(alloc, dfa)?;
    let mut classes = Refinable::whole(alloc, dfa.states())?;
    let accepting = accepting_states(alloc, dfa)?;
    classes.split(&accepting)?;
    let mut splitter = 0;
    'splitters: while splitter < classes.count() {
        let inside = classes.states_of(alloc, splitter)?;
        'columns: for column in 0..dfa.columns() {
            if classes.count() as u64 > most {
                return Ok(None);
            }
            let touched = sources.leading_to(alloc, &inside, column)?;
            classes.split(&touched)?;
        }
        splitter += 1;
    }
    if classes.count() as u64 > most {
        return Ok(None);
    }
    Ok(Some(classes))
}

fn accepting_states(alloc: Global, dfa: &Dfa) -> Result<Vec<u32>, AllocError>
    ensures { IfOk result (λ states. AreAccepting dfa.now states.items) }
{
    let mut states = Vec::new(alloc);
    for state in 0..dfa.states() {
        if dfa.accepting(state) {
            states.push(state)?;
        }
    }
    Ok(states)
}
