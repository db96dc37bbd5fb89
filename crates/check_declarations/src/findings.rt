// What a walk over a program finds.
ghost use Rattle.std.specs.Prelude.{◌≡◌, []};

use crate::fault::TypeFault;
use crate::name_table::NameTable;
use crate::structs::Structs;
use std::alloc::Global;

/// What a walk over a program has found so far.
#[derive(Drop)]
pub struct Findings {
    /// The structs that are declared.
    pub structs: Structs,
    pub faults: Vec<TypeFault>,
}

impl Findings {
    /// Nothing.
    pub fn none(alloc: Global) -> Findings
        ensures structs { result.structs ≡ [] }
        ensures faults { result.faults.items ≡ [] }
    {
        Findings {
            structs: NameTable::new(alloc),
            faults: Vec::new(alloc),
        }
    }
}
