// What a call gives to the function that it is for.
use block_memory::Cell;
use pt_base::Listed;

/// The arguments of a call, and the cells of its blocks by number. A pointer among the arguments
/// points to `Received` of a block's number.
#[derive(Drop)]
pub struct Inputs {
    pub args: Listed<Cell>,
    pub blocks: Listed<Listed<Cell>>,
}
