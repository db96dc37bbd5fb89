// A cell of what is pointed to.
use pt_base::IntType;

/// An integer of what is pointed to: its type, and whether a field marked `priv` leads to it.
#[derive(Clone, Copy)]
pub struct Leaf {
    pub ty: IntType,
    pub marked: bool,
}
