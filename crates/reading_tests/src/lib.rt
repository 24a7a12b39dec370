//! What no clause says of the crates that read words, logs and models: their public calls on their happy paths, and worked
//! rows.
#![tactic(auto)]

#[cfg(test)]
mod tests;
