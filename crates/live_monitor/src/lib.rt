//! Running cases beside a list of constraints: what each case's trace so far says of the traces that it may still become.
#![tactic(auto)]

mod leading;
mod monitor;
mod standing;
mod watched;
mod watched_list;

pub use monitor::Monitor;
pub use standing::Standing;
