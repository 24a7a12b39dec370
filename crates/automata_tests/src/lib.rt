//! What no clause says of the crates of automata: their public calls on their happy paths, and worked rows.
#![tactic(auto)]

#[cfg(test)]
mod analyses;
#[cfg(test)]
mod certificates;
#[cfg(test)]
mod comparisons;
#[cfg(test)]
mod least_automata;
#[cfg(test)]
mod limits;
#[cfg(test)]
mod lists;
#[cfg(test)]
mod monitors;
#[cfg(test)]
mod products;
#[cfg(test)]
mod reductions;
