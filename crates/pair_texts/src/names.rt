// The names of functions.
ghost use Rattle.std.specs.Prelude.{◌≡◌, IfOk};
ghost use Rattle.typed_tree.specs.TypedView.{view_typed};
ghost use Rattle.pair_texts.specs.Start.{names_of};

use pt_base::{Bytes, Listed};
use std::alloc::{AllocError, Global};
use typed_tree::Typed;

/// The name of each function of the program, by its number.
pub(crate) fn names_of(alloc: Global, program: &Typed) -> Result<Listed<Bytes>, AllocError>
    ensures { IfOk result (λ names. names ≡ names_of (view_typed program.now)) }
{
    let mut names = Vec::with_capacity(alloc, program.functions.len())?;
    for function in &program.functions {
        names.push(function.signature.name.copy(alloc)?)?;
    }
    Ok(Listed::new(names))
}
