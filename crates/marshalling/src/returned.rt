// What a caller has after a call.
use block_memory::{BlockName, Cell};

/// What a caller has after a call: the result, and the blocks that come back, each with the cells
/// that are to stand in the place of its own.
#[derive(Drop)]
pub struct Returned {
    pub value: Option<Cell>,
    pub blocks: Vec<ReturnedBlock>,
}

/// A block that comes back.
#[derive(Drop)]
pub struct ReturnedBlock {
    // Its number among the blocks that the call sent.
    pub(crate) number: usize,
    pub name: BlockName,
    /// All its cells, also those that stay what they were.
    pub cells: Vec<Cell>,
}
