/// A place of a trace where a constraint is activated and isn't fulfilled.
#[derive(Clone, Copy, Debug, PartialEq, Eq)]
pub struct Broken {
    /// The number of the trace in its log, from 1.
    pub trace: u64,
    /// The place in the trace, from 0. The trace's length stands for the whole trace.
    pub place: u64,
}

/// How the traces of a log keep a constraint.
#[derive(Clone, Copy, Debug, PartialEq, Eq)]
pub struct Checked {
    /// Activated places.
    pub activated: u64,
    /// Activated and fulfilled places.
    pub fulfilled: u64,
    /// Traces that keep the constraint.
    pub kept: u64,
    /// The first trace that doesn't, with its first place that is activated and isn't fulfilled.
    pub broken: Option<Broken>,
}
