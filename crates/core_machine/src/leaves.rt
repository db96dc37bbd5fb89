// The integers of which objects consist.
ghost use Rattle.std.specs.Prelude.{◌≡◌, ◌≤◌, ◌^◌, ◌++◌, [], IfOk, length, List, map, OnOk, sum_by};
ghost use Rattle.std.specs.List.{flat_map};
ghost use Rattle.pt_core.specs.Types.{shape_of as shape_by};
ghost use Rattle.pt_tree.specs.declared.signature.Elem.TheVariants as e;
ghost use Rattle.typed_tree.specs.Cells.{element_leaves, leaves_from, object_leaves, repeated};
ghost use Rattle.typed_tree.specs.declared.types.StructInfo.{StructInfo};

use crate::counts::{MOST_STRUCT_INTEGERS, few_integers};
use block_memory::BlockShape;
use pt_base::{IntType, Listed};
use pt_tree::Elem;
use std::alloc::{AllocError, Global};
use typed_tree::{Field, StructInfo, Var, VarTy};

/// The integers of each struct, in the order of their declaration. More than [`MOST_STRUCT_INTEGERS`] of all
/// structs together count as want of memory.
pub(crate) fn leaves_table(
    alloc: Global,
    structs: &[StructInfo],
) -> Result<Vec<Listed<IntType>>, AllocError>
    ensures table { IfOk result (λ known. known.items ≡ leaves_from [] structs.now) }
    ensures few { IfOk result (λ known. sum_by length known.items ≤ 2 ^ 26) }
{
    let mut known = Vec::new(alloc);
    let mut left = MOST_STRUCT_INTEGERS;
    for info in structs {
        let leaves = struct_leaves(alloc, known.as_slice(), info.fields.as_slice(), left)?;
        left -= leaves.len();
        known.push(Listed::new(leaves))?;
    }
    Ok(known)
}

fn struct_leaves(
    alloc: Global,
    known: &[Listed<IntType>],
    fields: &[Field],
    most: usize,
) -> Result<Vec<IntType>, AllocError>
    ensures leaves { IfOk result (λ leaves. leaves.items ≡ flat_map (λ f. object_leaves known.now f.ty) fields.now) }
    ensures few { IfOk result (λ leaves. length leaves.items ≤ most) }
{
    let count = few_integers(known, fields, most)?;
    let mut leaves = Vec::with_capacity(alloc, count)?;
    for field in fields {
        add_object(known, field.ty, &mut leaves)?;
    }
    Ok(leaves)
}

/// Adds the integers of an object.
pub(crate) fn add_object(
    known: &[Listed<IntType>],
    ty: VarTy,
    leaves: &mut Vec<IntType>,
) -> Result<(), AllocError>
    ensures { OnOk result (leaves.new.items ≡ leaves.old.items ++ object_leaves known.now ty) }
{
    match ty {
        VarTy::Int(t) => {
            leaves.push(t)?;
            Ok(())
        }
        VarTy::Struct(n) => add_struct(known, n, leaves),
        VarTy::Array { elem, count } => add_elements(known, elem, count, leaves),
        VarTy::Pointer { .. } => Ok(()),
    }
}

fn add_struct(
    known: &[Listed<IntType>],
    n: u32,
    leaves: &mut Vec<IntType>,
) -> Result<(), AllocError>
    ensures { OnOk result (leaves.new.items ≡ leaves.old.items ++ element_leaves known.now (e.Struct n)) }
{
    match known.get(n as usize) {
        Some(more) => {
            leaves.extend_from_slice(more.as_slice())?;
            Ok(())
        }
        None => Ok(()),
    }
}

fn add_element(
    known: &[Listed<IntType>],
    elem: Elem,
    leaves: &mut Vec<IntType>,
) -> Result<(), AllocError>
    ensures { OnOk result (leaves.new.items ≡ leaves.old.items ++ element_leaves known.now elem) }
{
    match elem {
        Elem::Int(t) => {
            leaves.push(t)?;
            Ok(())
        }
        Elem::Struct(n) => add_struct(known, n, leaves),
    }
}

fn add_elements(
    known: &[Listed<IntType>],
    elem: Elem,
    count: u32,
    leaves: &mut Vec<IntType>,
) -> Result<(), AllocError>
    ensures { OnOk result (leaves.new.items ≡ leaves.old.items ++ repeated count (element_leaves known.now elem)) }
{
    let mut left = count;
    while left > 0 {
        add_element(known, elem, leaves)?;
        left -= 1;
    }
    Ok(())
}

/// What each variable is made of.
pub(crate) fn shapes_of(
    alloc: Global,
    known: &[Listed<IntType>],
    vars: &[Var],
) -> Result<Vec<BlockShape>, AllocError>
    ensures { IfOk result (λ shapes. (structs : List StructInfo) → leaves_from [] structs ≡ known.now → shapes.items ≡ map (λ x. shape_by structs x.ty) vars.now) }
{
    let mut shapes = Vec::new(alloc);
    for var in vars {
        shapes.push(shape_of(alloc, known, var.ty)?)?;
    }
    Ok(shapes)
}

#[tactic(auto, unfolding(typed_tree::specs::Cells::leaves_of))]
fn shape_of(alloc: Global, known: &[Listed<IntType>], ty: VarTy) -> Result<BlockShape, AllocError>
    ensures { IfOk result (λ shape. (structs : List StructInfo) → leaves_from [] structs ≡ known.now → shape ≡ shape_by structs ty) }
{
    if let VarTy::Pointer { .. } = ty {
        return Ok(BlockShape::OnePointer);
    }
    let mut leaves = Vec::new(alloc);
    add_object(known, ty, &mut leaves)?;
    Ok(BlockShape::Ints(Listed::new(leaves)))
}
