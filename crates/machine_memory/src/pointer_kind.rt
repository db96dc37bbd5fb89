// The kinds of pointers.

/// What a pointer points to.
#[derive(Clone, Copy)]
pub enum PointerKind {
    /// Nothing: it is the null pointer.
    Null,
    Global,
    /// A variable of a function that was entered.
    Local,
    /// A block that a caller sent along.
    Received,
}
