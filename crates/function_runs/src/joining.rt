// The lists that threads made, one behind the other.
ghost use Rattle.std.specs.Prelude.{◌≡◌, ◌++◌, IfOk, OnOk, Some};
ghost use Rattle.function_runs.specs.Parts.{joined};

use std::alloc::{AllocError, Global};

/// Moves the items of a list to the end of another. An empty list takes the other as it is, without a copy.
pub fn append<X: Drop>(list: &mut Vec<X>, more: Vec<X>) -> Result<(), AllocError>
    ensures { OnOk result (list.new.items ≡ list.old.items ++ more.items) }
{
    let mut more = more;
    if list.is_empty() {
        *list = more;
        return Ok(());
    }
    list.append(&mut more)
}

/// The items of all parts in their order. Where a part is wanting, memory is wanting.
pub fn joined<X: Drop>(
    alloc: Global,
    parts: Vec<Result<Vec<X>, AllocError>>,
) -> Result<Vec<X>, AllocError>
    ensures { IfOk result (λ v. joined parts.items ≡ Some v.items) }
{
    let mut all = Vec::new(alloc);
    for part in parts {
        append(&mut all, part?)?;
    }
    Ok(all)
}
