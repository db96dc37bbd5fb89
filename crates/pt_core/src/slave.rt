// The slave's program.
use crate::function::CoreFn;
use crate::global::GlobalVar;
use crate::program::Signatures;
use pt_base::{FnId, Listed};
use typed_tree::StructInfo;

/// The slave's program: its functions, the signatures of these and of all that they call, the
/// globals that it owns, and the hosts that it may have to call itself.
#[derive(Drop)]
pub struct SlaveProgram {
    pub structs: Listed<StructInfo>,
    pub signatures: Signatures,
    pub functions: Vec<CoreFn>,
    pub globals: Listed<GlobalVar>,
    pub hosts: Listed<FnId>,
}
