ghost use Rattle.std.specs.Prelude.{◌≡◌, ◌<◌, length, IfOk, MatchOption};
ghost use Rattle.dfa_core.specs.Automaton.{state_count};
ghost use Rattle.dfa_minimise.specs.Classes.{AreAlike, AreTogether, IsAstray, IsEquivalence, LeadInto, class_after};
ghost use Rattle.dfa_minimise.specs.Partitions.{IsTidy, members_of};

use crate::refinable::Refinable;
use dfa_core::Dfa;
use std::alloc::{AllocError, Global};

/// The columns in groups: two are in one group exactly where they lead from each state to states of one class. One state of each class is looked
/// at, and none once each column is in a group of its own.
pub(crate) fn alike_columns(
    alloc: Global,
    dfa: &Dfa,
    classes: &Refinable,
) -> Result<Refinable, AllocError>
    requires tidy { IsTidy classes.now }
    requires equivalence { IsEquivalence dfa.now classes.now.class.items (members_of classes.now) }
    ensures { IfOk result (AreAlike dfa.now classes.now.class.items) }
{
    let classed = Classed { dfa, classes };
    // A partition has a member at least, also where there is no column.
    let mut groups = Refinable::whole(alloc, dfa.columns().max(1))?;
    let mut class = 0;
    'classes: while class < classes.count() && groups.count() < dfa.columns() {
        let state = classes.member_of(class);
        match classed.astray(&groups, state) {
            Some(column) => {
                let alike = classed.leading_like(alloc, state, column)?;
                groups.split(&alike)?;
            }
            None => class += 1,
        }
    }
    Ok(groups)
}

/// An automaton and the classes of its states.
#[derive(Drop)]
struct Classed<'a> {
    dfa: &'a Dfa,
    classes: &'a Refinable,
    ghost tidy: { IsTidy classes.now },
    ghost states: { length classes.now.class.items ≡ state_count dfa.now },
}

impl Classed<'_> {
    /// The class after a state and a column.
    fn after(&self, state: u32, column: u32) -> u32
        requires state { state < state_count self.now.dfa.now }
        requires column { column < self.now.dfa.now.width }
        ensures { result ≡ class_after self.now.dfa.now self.now.classes.now.class.items state column }
    {
        self.classes.class_of(self.dfa.step_column(state, column))
    }

    /// A column that leads from a state to another class than the first of its group does.
    fn astray(&self, groups: &Refinable, state: u32) -> Option<u32>
        requires tidy { IsTidy groups.now }
        requires columns { length groups.now.class.items ≡ self.now.dfa.now.width }
        requires state { state < state_count self.now.dfa.now }
        ensures { MatchOption result (AreTogether self.now.dfa.now self.now.classes.now.class.items groups.now state)
            (IsAstray self.now.dfa.now self.now.classes.now.class.items groups.now state) }
    {
        for column in 0..self.dfa.columns() {
            let first = groups.member_of(groups.class_of(column));
            if self.after(state, column) != self.after(state, first) {
                return Some(column);
            }
        }
        None
    }

    /// The columns that lead from a state to the class to which one of them does.
    fn leading_like(&self, alloc: Global, state: u32, column: u32) -> Result<Vec<u32>, AllocError>
        requires state { state < state_count self.now.dfa.now }
        requires column { column < self.now.dfa.now.width }
        ensures { IfOk result (λ columns. LeadInto self.now.dfa.now self.now.classes.now.class.items state
            (class_after self.now.dfa.now self.now.classes.now.class.items state column) columns.items) }
    {
        let class = self.after(state, column);
        let mut columns = Vec::new(alloc);
        for other in 0..self.dfa.columns() {
            if self.after(state, other) == class {
                columns.push(other)?;
            }
        }
        Ok(columns)
    }
}
