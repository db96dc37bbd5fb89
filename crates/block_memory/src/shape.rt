// What a block is made for.
use pt_base::{IntType, Listed};

/// What a block is made for.
#[derive(Drop)]
pub enum BlockShape {
    /// One pointer: a block of one cell.
    OnePointer,
    /// Integers of these types: a block of a cell for each.
    Ints(Listed<IntType>),
}
