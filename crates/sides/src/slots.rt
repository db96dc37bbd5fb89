// The slots that values lie in.
use crate::path::Path;
use pt_base::{FnId, GlobalId, VarId};

/// What a slot is a part of.
#[derive(Clone, Copy)]
pub enum Owner {
    /// A variable of a function.
    Variable { function: FnId, var: VarId },
    Global(GlobalId),
    /// What a function or host returns.
    Result(FnId),
}

/// A slot: an integer of an object, or all the integers that have this path. The elements of an array
/// share their slots, and a pointer has those of what it points to.
#[derive(Drop)]
pub struct SlotInfo {
    pub owner: Owner,
    /// The numbers of the fields that lead to it.
    pub path: Path,
    /// One of these fields is marked `priv`.
    pub marked: bool,
}
