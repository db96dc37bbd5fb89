// Whole programs.
use crate::function::CoreFn;
use crate::global::GlobalVar;
use pt_base::{FnId, Listed};
use pt_tree::Signature;
use typed_tree::StructInfo;

/// What functions are called with, each with the function's number.
pub type Signatures = Listed<(FnId, Signature)>;

/// A whole program: its functions, and signatures for them and for what they call. Each
/// list is in the order of the numbers.
pub struct CoreProgram {
    pub structs: Listed<StructInfo>,
    pub signatures: Signatures,
    pub functions: Vec<CoreFn>,
    pub globals: Listed<GlobalVar>,
}

impl Drop for CoreProgram {
    fn drop(self) {
        let CoreProgram {
            structs: _structs,
            signatures: _signatures,
            functions: _functions,
            globals: _globals,
        } = self;
    }
}
