// The limits of the format.

/// A piece of the boot has at most as many bytes.
pub(crate) const LONGEST_PIECE: usize = 1_048_576;

/// A call has at most as many arguments, and at most as many blocks.
pub(crate) const MOST_IN_A_CALL: u8 = 8;

/// A block has at most as many cells.
pub(crate) const MOST_IN_A_BLOCK: u32 = 65_536;

/// A frame holds at most as many bytes.
pub(crate) const LONGEST_PAYLOAD: u32 = 16_777_216;
