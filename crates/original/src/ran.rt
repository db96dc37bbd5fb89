// What the run of a program comes to.
use pt_base::End;

/// What a program's run comes to.
#[derive(Drop)]
pub struct Ran {
    /// All that hosts wrote.
    pub written: Vec<u8>,
    /// How it ended. No policy is asked, so none ends it.
    pub end: End,
}
