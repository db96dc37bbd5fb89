// What the run of a pair comes to.
use pt_base::{Bytes, End, Listed};

/// What the run of both halves comes to.
#[derive(Drop)]
pub struct Ran {
    /// All that was written.
    pub written: Vec<u8>,
    /// How it ended.
    pub end: End,
    /// The name of each function of the program, by its number: of these the end tells.
    pub names: Listed<Bytes>,
}
