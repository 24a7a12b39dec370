//! Tables and the summary as text.
#![tactic(auto)]

mod analysed;
mod checks;
mod compared;
mod counters;
mod fields;
mod model;
mod open_traces;
mod summary;
mod verified;

pub use analysed::analysed_text;
pub use checks::check_table;
pub use compared::compared_text;
pub use counters::kb_table;
pub use model::{consistent_table, model_table, scores_table};
pub use summary::summary_text;
pub use verified::verdict_text;

#[cfg(test)]
mod analysed_tests;
#[cfg(test)]
mod tests;
