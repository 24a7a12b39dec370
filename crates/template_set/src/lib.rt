//! The fifty templates by their kind: tables, numbers, names, and the places of a trace.
#![tactic(auto)]

mod dispatch;
mod hierarchy;
mod names;
mod numbers;
mod places;
mod tables;

pub use hierarchy::{stronger, stronger_is_strict, stronger_keeps};
pub use names::{kind_of, kinds, name};
pub use numbers::{Numbers, arity, counts_of};
pub use places::{keeps, place_activated, place_holds};
pub use tables::table_of;

#[cfg(test)]
mod tests;
