//! The scores of the constraints over a log, and the candidates in the order of priority.
#![tactic(auto)]

mod found;
mod laws;
mod mined;
mod priority;
mod scored;
mod scorer;
mod search;
mod selection;

pub use decl_base::Thresholds;
pub use laws::{
    candidates_ascend, candidates_of_log, constraints_activated, constraints_ascend,
    constraints_over_ranks,
};
pub use scored::Scored;
pub use selection::candidates;

#[cfg(test)]
mod tests;
