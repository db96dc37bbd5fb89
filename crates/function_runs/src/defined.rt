// The functions that have bodies.
ghost use Rattle.std.specs.Prelude.{◌≡◌, ◌+◌, ◌++◌, All, IfOk, OnOk, is_some};
ghost use Rattle.typed_tree.specs.TypedTree.{view_function};
ghost use Rattle.typed_tree.specs.TypedView.{view_typed};
ghost use Rattle.function_runs.specs.Defined.{HasBody, defined, if_defined};

use pt_base::{FnId, next_number};
use std::alloc::{AllocError, Global};
use typed_tree::{Typed, TypedFn};

// adds the number of a function that has a body
fn add_defined(f: FnId, function: &TypedFn, list: &mut Vec<FnId>) -> Result<(), AllocError>
    ensures { OnOk result (list.new.items ≡ list.old.items ++ if_defined (is_some (view_function function.now).body) f) }
{
    if function.body.is_some() {
        list.push(f)?;
    }
    Ok(())
}

// the same, without the fact that each has a body
fn numbers(alloc: Global, t: &Typed) -> Result<Vec<FnId>, AllocError>
    ensures { IfOk result (λ fs. fs.items ≡ defined (view_typed t.now)) }
{
    let mut list = Vec::new(alloc);
    let mut number: u32 = 0;
    for function in &t.functions {
        add_defined(FnId(number), function, &mut list)?;
        number = next_number(number)?;
    }
    Ok(list)
}

/// The functions of a program that have bodies, in their order.
pub fn defined_functions(alloc: Global, t: &Typed) -> Result<Vec<FnId>, AllocError>
    ensures these { IfOk result (λ fs. fs.items ≡ defined (view_typed t.now)) }
    ensures defined { IfOk result (λ fs. All (HasBody (view_typed t.now)) fs.items) }
{
    let list = numbers(alloc, t)?;
    Ok(list)
}
