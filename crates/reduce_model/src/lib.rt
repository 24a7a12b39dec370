//! Lists of constraints reduced: conflicts are removed, and what the others imply.
#![tactic(auto)]

mod conflicts;
mod decision;
mod first_pass;
mod first_within;
mod grown;
mod kept;
mod laws;
mod laws_within;
mod others;
mod prefixes;
mod pruning;
mod reduction;
mod second_pass;
mod second_within;
mod within;
mod witnesses;
mod witnesses_within;

pub use conflicts::sift;
pub use decision::{Decision, Reduced, Sifted};
pub use laws::{
    decisions_are_determined, left_out_conflicts_or_is_implied, model_is_keepable,
    model_keeps_the_traces, reduction_is_determined, witnesses_break_one_each,
};
pub use laws_within::{
    left_out_within_is_implied_conflicts_or_is_wide, model_within_is_keepable,
    model_within_keeps_the_traces, reduction_within_is_determined, within_agrees,
    witnesses_within_break_one_each,
};
pub use reduction::reduce;
pub use within::{reduce_within, sift_within};
