// What a brace list fills (C99 6.7.8p17 to p20).
ghost use Rattle.std.specs.Prelude.{◌≡◌, ◌++◌, IfOk, OnOk, take};
ghost use Rattle.typed_tree.specs.Cells.{repeated};
ghost use Rattle.check_statements.specs.Leaves as is;

use check_declarations::{FieldEntry, Structs, cells_of};
use pt_tree::Elem;
use std::alloc::{AllocError, Global};
use type_rules::Type;

/// The first `wanted` leaves of an object of this type: its integers in the order of their declaration,
/// each by its type, or the pointer that it is. There may be some more of them.
pub(crate) fn first_leaves(
    alloc: Global,
    structs: &Structs,
    ty: Type,
    wanted: usize,
) -> Result<Vec<Type>, AllocError>
    ensures { IfOk result (λ leaves. take wanted leaves.items ≡ take wanted (is.leaves_of structs.now ty)) }
{
    let mut leaves = Vec::new(alloc);
    add_object(alloc, structs, structs.count(), ty, wanted, &mut leaves)?;
    Ok(leaves)
}

/// Adds the leaves of an object, as far as they are wanted.
#[cycle(leaves)]
fn add_object(
    alloc: Global,
    structs: &Structs,
    depth: u32,
    ty: Type,
    wanted: usize,
    leaves: &mut Vec<Type>,
) -> Result<(), AllocError>
    ensures { OnOk result (take wanted leaves.new.items ≡ take wanted (leaves.old.items ++ is.object_leaves (is.struct_leaves depth structs.now) ty)) }
{
    match ty {
        Type::Bad => Ok(()),
        Type::Void => Ok(()),
        Type::Int(_) => {
            leaves.push(ty)?;
            Ok(())
        }
        Type::Struct(n) => add_struct(alloc, structs, depth, n, wanted, leaves),
        Type::Array { elem, count } => {
            add_elements(alloc, structs, depth, elem, count, wanted, leaves)
        }
        Type::Pointer { .. } => {
            leaves.push(ty)?;
            Ok(())
        }
    }
}

/// Adds the leaves of so many elements; those of one are found once.
#[cycle(leaves)]
fn add_elements(
    alloc: Global,
    structs: &Structs,
    depth: u32,
    elem: Elem,
    count: u32,
    wanted: usize,
    leaves: &mut Vec<Type>,
) -> Result<(), AllocError>
    ensures { OnOk result (take wanted leaves.new.items ≡ take wanted (leaves.old.items ++ repeated count (is.element_leaves (is.struct_leaves depth structs.now) elem))) }
{
    let mut element = Vec::new(alloc);
    add_element(alloc, structs, depth, elem, wanted, &mut element)?;
    add_repeated(leaves, &element, count, wanted)?;
    Ok(())
}

/// Adds the leaves of an element.
#[cycle(leaves)]
fn add_element(
    alloc: Global,
    structs: &Structs,
    depth: u32,
    elem: Elem,
    wanted: usize,
    leaves: &mut Vec<Type>,
) -> Result<(), AllocError>
    ensures { OnOk result (take wanted leaves.new.items ≡ take wanted (leaves.old.items ++ is.element_leaves (is.struct_leaves depth structs.now) elem)) }
{
    match elem {
        Elem::Int(t) => {
            leaves.push(Type::Int(t))?;
            Ok(())
        }
        Elem::Struct(n) => add_struct(alloc, structs, depth, n, wanted, leaves),
    }
}

/// Adds the leaves of the fields of a struct.
#[cycle(leaves)]
fn add_struct(
    alloc: Global,
    structs: &Structs,
    depth: u32,
    n: u32,
    wanted: usize,
    leaves: &mut Vec<Type>,
) -> Result<(), AllocError>
    ensures { OnOk result (take wanted leaves.new.items ≡ take wanted (leaves.old.items ++ is.struct_leaves depth structs.now n)) }
{
    if depth == 0 {
        return Ok(());
    }
    let Some(entry) = structs.get(n) else {
        return Ok(());
    };
    for field in entry.fields.values() {
        if leaves.len() >= wanted {
            return Ok(());
        }
        add_field(alloc, structs, depth - 1, field, wanted, leaves)?;
    }
    Ok(())
}

/// Adds the leaves of a field, where it has cells.
#[cycle(leaves)]
fn add_field(
    alloc: Global,
    structs: &Structs,
    depth: u32,
    field: &FieldEntry,
    wanted: usize,
    leaves: &mut Vec<Type>,
) -> Result<(), AllocError>
    ensures { OnOk result (take wanted leaves.new.items ≡ take wanted (leaves.old.items ++ is.field_leaves (is.struct_leaves depth structs.now) structs.now field.now)) }
{
    if cells_of(structs, field.ty) > 0 {
        add_object(alloc, structs, depth, field.ty, wanted, leaves)?;
    }
    Ok(())
}

/// Adds the leaves of so many elements, as far as they are wanted.
#[tactic(auto, using(typed_tree::proofs::AlikeLists::step_repeated))]
fn add_repeated(
    leaves: &mut Vec<Type>,
    element: &[Type],
    count: u32,
    wanted: usize,
) -> Result<(), AllocError>
    ensures { OnOk result (take wanted leaves.new.items ≡ take wanted (leaves.old.items ++ repeated count element.now)) }
{
    if element.is_empty() {
        return Ok(());
    }
    for _i in 0..count {
        if leaves.len() >= wanted {
            return Ok(());
        }
        leaves.extend_from_slice(element)?;
    }
    Ok(())
}
