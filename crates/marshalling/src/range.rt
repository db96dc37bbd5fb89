// A range of cells that come back.
use crate::leaf::Leaf;

/// Cells of the block `block`, from cell `base` on, that come back; all as handles where `secret`.
#[derive(Drop)]
pub(crate) struct Range {
    pub(crate) block: u8,
    pub(crate) base: u32,
    pub(crate) secret: bool,
    pub(crate) leaves: Vec<Leaf>,
}
