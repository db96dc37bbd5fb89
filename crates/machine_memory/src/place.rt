// Where an integer or a pointer lies.
use pt_base::IntType;

/// Where an integer lies, and its type.
#[derive(Clone, Copy)]
pub struct Place {
    /// The number of its word.
    pub at: u32,
    pub ty: IntType,
}

/// What a cell of a variable is.
#[derive(Clone, Copy)]
pub(crate) enum Found {
    Integer(Place),
    /// The pointer of this number.
    Pointer(u32),
    /// The variable has no such cell.
    Missing,
}
