// Which functions of a program are hosts.
ghost use Rattle.std.specs.Prelude.{◌≡◌, ◌++◌, IfOk, OnOk, map};
ghost use Rattle.typed_tree.specs.TypedView.{view_typed};
ghost use Rattle.original.specs.MachineRunHostGates.{marks_of};

use std::alloc::{AllocError, Global};
use typed_tree::Typed;

/// For each function of a program, whether it is a host.
pub(crate) fn host_marks(alloc: Global, program: &Typed) -> Result<Vec<bool>, AllocError>
    ensures { IfOk result (λ v. v.items ≡ marks_of (view_typed program.now)) }
{
    let mut marks = Vec::new(alloc);
    for function in &program.functions {
        marks.push(function.signature.host)?;
    }
    Ok(marks)
}
