// What a caller has to know to take a reply.
use crate::range::Range;
use block_memory::BlockName;

/// The blocks of a call by number, and the ranges of them that come back.
#[derive(Drop)]
pub(crate) struct Plan {
    pub(crate) targets: Vec<BlockName>,
    pub(crate) ranges: Vec<Range>,
}
