// The lists in messages, which contracts see as lists.
use crate::cell::{Arg, WireCell};
use pt_base::{IntType, Listed};

/// The arguments of a call.
pub type Args = Listed<Arg>;

/// Cells of a reply.
pub type Cells = Listed<WireCell>;

/// A block of memory that a call passes: each cell with its type.
pub type Block = Listed<(IntType, WireCell)>;

/// The blocks of a call, by number.
pub type Blocks = Listed<Block>;
