// The ranges that a rule's line names.

/// A parameter, by its place from 0, and the range for its argument, bounds included.
#[derive(Clone, Copy)]
pub struct ArgRange {
    pub parameter: u8,
    pub low: i128,
    pub high: i128,
}
