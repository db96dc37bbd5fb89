// Where a block lies among others.

/// Where a block's types and its cells start.
#[derive(Clone, Copy)]
pub(crate) struct Start {
    pub(crate) types: usize,
    pub(crate) cells: usize,
}
