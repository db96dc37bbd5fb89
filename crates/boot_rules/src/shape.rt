// What is kept of a struct.
use typed_tree::VarTy;

/// What is kept of a struct.
#[derive(Clone, Copy)]
pub(crate) struct Shape {
    /// How many integers it has, counted up to 65,537.
    pub(crate) cells: u32,
    /// What it comes to where it has one field.
    pub(crate) only: Option<VarTy>,
}
