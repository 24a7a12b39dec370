/// What a trace says of the traces that begin with it.
#[derive(Clone, Copy, Debug, PartialEq, Eq)]
pub enum Standing {
    /// Each of them keeps.
    Kept,
    /// The trace keeps, and not each of them does.
    KeptNow,
    /// The trace doesn't keep, and some of them do.
    BrokenNow,
    /// None of them keeps.
    Broken,
}
