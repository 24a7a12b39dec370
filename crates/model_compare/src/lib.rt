//! Models compared and analysed, by the traces that keep them.
#![tactic(auto)]

mod analysed;
mod analysis;
mod compared;
mod comparison;
mod dead;
mod laws;
mod narrow;
mod redundant;
mod traces;

pub use analysed::Analysed;
pub use analysis::analyse;
pub use compared::{Compared, Relation};
pub use comparison::compare;
pub use laws::relation_is_told_by_the_traces;
