//! Certificates made: the chain of automata of a reduced list, with relations between their states that show what was dropped and why.
#![tactic(auto)]

mod chain;
mod claim;
mod copy;
mod entries;
mod implied;
mod links;
mod product;
mod search;

pub use chain::make_chain;
