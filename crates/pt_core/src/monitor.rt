// The monitor's program.
use crate::function::CoreFn;
use crate::global::GlobalVar;
use crate::program::Signatures;
use pt_base::{FnId, GlobalId, Listed};
use typed_tree::StructInfo;

/// A parameter that stands for a global: its place among the parameters, counted from 0.
#[derive(Clone, Copy, Debug, PartialEq, Eq)]
pub struct Bind {
    pub argument: u8,
    pub global: GlobalId,
}

/// A function or host that the slave may ask for, with the parameters that stand for globals,
/// which are those after the function's own.
pub struct Entry {
    pub function: FnId,
    pub shared: Listed<Bind>,
}

impl Drop for Entry {
    fn drop(self) {
        let Entry {
            function: _,
            shared: _shared,
        } = self;
    }
}

/// The monitor's program: its functions, the signatures of these and of all that they call, the
/// globals that it owns, and what the slave may ask for.
pub struct MonitorProgram {
    pub structs: Listed<StructInfo>,
    pub signatures: Signatures,
    pub functions: Vec<CoreFn>,
    pub globals: Listed<GlobalVar>,
    pub entries: Listed<Entry>,
}

impl Drop for MonitorProgram {
    fn drop(self) {
        let MonitorProgram {
            structs: _structs,
            signatures: _signatures,
            functions: _functions,
            globals: _globals,
            entries: _entries,
        } = self;
    }
}
