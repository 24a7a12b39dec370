/// What is kept of an event.
#[derive(Clone, Copy, Debug)]
pub(crate) struct Kept {
    /// The number of its case, from 0.
    pub case: u32,
    /// The number of its activity, from 0.
    pub activity: u32,
    /// The place of its record, from 0 behind the header, which is the place of its key.
    pub place: usize,
}
