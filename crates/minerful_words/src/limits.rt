//! The numbers that the settings have at most, and the limit on states where none is set.

pub(crate) const STATES: u64 = 16_384;

/// The greatest limit on states that may be set.
pub(crate) const MOST_STATES: u64 = 65_536;

pub(crate) const MOST_SEED: u64 = 4_294_967_295;

pub(crate) const MOST_TRACES: u64 = 1_048_575;

pub(crate) const MOST_LENGTH: u64 = 1_000;

pub(crate) const MOST_LETTERS: u64 = 26;

/// The greatest number of traces that an analysis lists.
pub(crate) const MOST_LISTED: u64 = 20;

/// The greatest number of events that a log may be generated with.
pub(crate) const MOST_EVENTS: u64 = 16_777_215;
