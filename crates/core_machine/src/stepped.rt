// What a step comes to.
use block_memory::Cell;
use pt_base::{FnId, Span, Trap};

/// What a step of the machine comes to.
#[derive(Drop)]
pub enum Stepped {
    /// The machine goes on.
    Moved,
    /// It asks for a call of this function with these arguments, at this depth: 0 of a host. It
    /// awaits the result.
    Asked {
        callee: FnId,
        args: Vec<Cell>,
        depth: u32,
    },
    /// The outermost function has ended, with this result if it gives one.
    Ended(Option<Cell>),
    /// The program broke off, at this place of the text.
    Trapped(Trap, Span),
    /// It would take a turn that the budget doesn't have.
    Spent,
    /// No function is active.
    Idle,
}

/// What the last of some steps came to, and how many are left of those that were to be made.
#[derive(Drop)]
pub struct Went {
    pub stepped: Stepped,
    pub left: u64,
}
