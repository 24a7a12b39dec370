//! What a claim has at most.

pub(crate) const MOST_SYMBOLS: u32 = 1_000;

/// The most constraints of a claim, and the most dropped ones.
pub(crate) const MOST_CONSTRAINTS: usize = 65_536;
