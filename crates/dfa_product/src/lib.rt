//! Intersections of automata with each other and with constraints, least traces, and the next ones after them.
#![tactic(auto)]

mod after;
mod outside;
mod pairs;
mod products;
mod wanted;

pub use after::first_after;
pub use outside::first_outside;
pub use products::{intersection, meet};
pub use wanted::{Want, first_trace};
