// Structs, which both halves have.
ghost use Rattle.std.specs.Prelude.{◌≡◌, IfOk};
ghost use Rattle.typed_tree.specs.TypedView.{view_typed};

use pt_base::Listed;
use std::alloc::{AllocError, Global};
use typed_tree::{StructInfo, Typed};

/// All structs of a program.
pub(crate) fn structs_of(alloc: Global, t: &Typed) -> Result<Listed<StructInfo>, AllocError>
    ensures { IfOk result (λ structs. structs ≡ (view_typed t.now).structs) }
{
    let mut all = Vec::new(alloc);
    let structs = t.structs.as_slice();
    for info in structs {
        all.push(info.copy(alloc)?)?;
    }
    Ok(Listed::new(all))
}
