//! Lists of constraints as automata.
#![tactic(auto)]

mod extending;
mod growing;
mod listed;

pub use extending::{extended, first_broken, fitted, narrowed};
pub use growing::{Grown, grow, or_start};
pub use listed::{Listed, automaton_of};
