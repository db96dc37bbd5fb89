// An active function.

/// An active function, at a place of its code.
#[derive(Clone, Copy)]
pub(crate) struct Frame {
    /// Its number.
    pub(crate) function: u32,
    /// The depth at which it was entered.
    pub(crate) depth: u32,
    /// The caller's variable for its result, if there is one.
    pub(crate) result: Option<u32>,
    /// Where it goes on.
    pub(crate) at: usize,
}
