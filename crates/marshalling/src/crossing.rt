// How cells come back from a call.

/// How a cell of a block that a call sent comes back.
#[derive(Clone, Copy)]
pub enum Crossing {
    /// It doesn't: it stays what it was.
    Stays,
    /// As its number.
    Plain,
    /// As a new handle.
    Sealed,
}
