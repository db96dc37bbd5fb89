// What the slave starts from.
use crate::function::CoreFn;
use crate::global::GlobalVar;
use crate::program::Signatures;
use pt_base::{Bytes, FnId, Listed};
use pt_tree::HostModel;
use typed_tree::StructInfo;

/// What the slave starts from: its program, what stands for its hosts, the input and the budget.
pub struct Boot {
    pub structs: Listed<StructInfo>,
    pub signatures: Signatures,
    pub functions: Vec<CoreFn>,
    pub globals: Listed<GlobalVar>,
    pub hosts: Listed<(FnId, HostModel)>,
    /// The input of the run where a host reads it, else nothing.
    pub input: Bytes,
    /// How many turns the run has.
    pub turns: u32,
}

impl Drop for Boot {
    fn drop(self) {
        let Boot {
            structs: _structs,
            signatures: _signatures,
            functions: _functions,
            globals: _globals,
            hosts: _hosts,
            input: _input,
            turns: _,
        } = self;
    }
}
