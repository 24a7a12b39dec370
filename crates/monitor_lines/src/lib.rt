//! Running cases, line by line: each line names a case and an event of it, and is answered by how the case stands then.
#![tactic(auto)]

mod cases;
mod next_line;
mod text;
mod waiting;
mod watching;

pub use watching::{monitor_of, watch};
