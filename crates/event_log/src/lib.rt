//! Names, and the logs over them.
#![tactic(auto)]

mod alphabet;
mod laws;
mod log;

pub use alphabet::Alphabet;
pub use laws::{sorted_names_are_those_of_the_log, sorted_names_ascend};
pub use log::Log;
