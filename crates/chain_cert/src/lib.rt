//! Certificates of a printed model: a chain of automata with relations between their states, and the checks of one.
//! The checks build no automaton and search for no trace. No call here takes memory.
#![tactic(auto)]

mod before;
mod chain;
mod claim;
mod forms;
mod implying;
mod keeping;
mod laws;
mod limits;
mod link;
mod linking;
mod pairs;
mod tables;
mod verdict;

pub use chain::{Chain, links_fit};
pub use claim::{Claim, Dropped};
pub use laws::verdict_is_determined;
pub use link::Link;
pub use pairs::Pairs;
pub use verdict::{Verdict, verify};
