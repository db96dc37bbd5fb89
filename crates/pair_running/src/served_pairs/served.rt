// What sessions come to.
use pt_base::{Bytes, End, Listed};

/// What a session wrote, and how it ended.
#[derive(Drop)]
pub struct SessionEnd {
    pub bytes: Bytes,
    pub end: End,
}

/// What all sessions come to, in the order of their inputs.
#[derive(Drop)]
pub struct Served {
    pub sessions: Vec<SessionEnd>,
    /// The name of each function of the program, by its number: of these the ends tell.
    pub names: Listed<Bytes>,
}
