// The answer for a program: its typed tree, or all its type faults.
ghost use Rattle.std.specs.Prelude.{◌≡◌};

use check_declarations::TypeFault;
use pt_base::Listed;
use std::alloc::{AllocError, AllocFailed};
use typed_tree::{StructInfo, TypedExpr, TypedFn, TypedGlobal};

/// The parts of the typed tree of a program without type faults. Each list is numbered from 0:
/// structs and globals in the order of their declarations, functions in the order of their first
/// ones.
#[derive(Drop)]
pub struct Elaborated {
    pub structs: Listed<StructInfo>,
    pub globals: Listed<TypedGlobal>,
    pub functions: Vec<TypedFn>,
    /// The outermost expressions of all bodies, in text order.
    pub exprs: Vec<TypedExpr>,
}

/// Why a program has no typed tree.
#[derive(Drop)]
pub enum TypeError {
    /// All its type faults, by their places and then by number, each once.
    Faults(Vec<TypeFault>),
    /// Memory is wanting.
    Memory,
}

impl From<AllocError> for TypeError {
    ghost use Rattle.check_programs.specs.declared.answer.TypeError.TheVariants.{Memory};

    ghost from_gives = { λ _ e. e ≡ Memory };

    fn from(_: AllocError) -> Self {
        TypeError::Memory
    }
}

impl<T: Drop> From<AllocFailed<T>> for TypeError {
    ghost use Rattle.check_programs.specs.declared.answer.TypeError.TheVariants.{Memory};

    ghost from_gives = { λ _ e. e ≡ Memory };

    fn from(_: AllocFailed<T>) -> Self {
        TypeError::Memory
    }
}
