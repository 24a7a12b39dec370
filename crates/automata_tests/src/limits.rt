//! The numbers that lists and automata have at most, and the limit on states where none is set.

pub(crate) const STATES: u64 = 16_384;

pub(crate) const MOST_STATES: u64 = 65_536;

pub(crate) const MOST_CONSTRAINTS: usize = 65_536;
