// The cells of what pointers point to.
ghost use Rattle.std.specs.Prelude.{◌≡◌, ◌++◌, ◌<◌, ◌||◌, IsTrue, IfOk, OnOk, length, map};
ghost use Rattle.marshalling.specs.Leaves.{is_elem, is_object, leaves_of, name_earlier, object_cells, under};

use crate::leaf::Leaf;
use pt_tree::Elem;
use std::alloc::{AllocError, Global};
use typed_tree::{Field, StructInfo, VarTy};

/// The cells of an element, in the order of declaration.
pub(crate) fn element_cells(
    alloc: Global,
    structs: &[StructInfo],
    elem: Elem,
) -> Result<Vec<Leaf>, AllocError>
    requires known { IsTrue (is_elem (length structs.now) elem) }
    requires earlier { IsTrue (name_earlier 0 structs.now) }
    ensures { IfOk result (λ v. v.items ≡ leaves_of structs.now elem) }
{
    let mut leaves = Vec::new(alloc);
    add_element(structs, elem, false, &mut leaves)?;
    Ok(leaves)
}

// Adds the cells of an element; `marked` where a field that leads to it is.
#[cycle(cells)]
fn add_element(
    structs: &[StructInfo],
    elem: Elem,
    marked: bool,
    leaves: &mut Vec<Leaf>,
) -> Result<(), AllocError>
    requires known { IsTrue (is_elem (length structs.now) elem) }
    requires earlier { IsTrue (name_earlier 0 structs.now) }
    ensures { OnOk result (leaves.new.items ≡ leaves.old.items ++ map (under marked) (leaves_of structs.now elem)) }
{
    match elem {
        Elem::Int(ty) => leaves.push(Leaf { ty, marked })?,
        Elem::Struct(number) => {
            let info = &structs[number as usize];
            for field in info.fields.as_slice() {
                let secret = is_secret(marked, field);
                add_object(structs, number, field.ty, secret, leaves)?;
            }
        }
    }
    Ok(())
}

// Adds the cells of a field of the struct `number`, which names earlier structs only.
#[cycle(cells)]
fn add_object(
    structs: &[StructInfo],
    number: u32,
    ty: VarTy,
    marked: bool,
    leaves: &mut Vec<Leaf>,
) -> Result<(), AllocError>
    requires known { number < length structs.now }
    requires object { IsTrue (is_object number ty) }
    requires earlier { IsTrue (name_earlier 0 structs.now) }
    ensures { OnOk result (leaves.new.items ≡ leaves.old.items ++ map (under marked) (object_cells structs.now ty)) }
{
    match ty {
        VarTy::Int(ty) => add_element(structs, Elem::Int(ty), marked, leaves)?,
        VarTy::Struct(inner) => add_element(structs, Elem::Struct(inner), marked, leaves)?,
        VarTy::Array { elem, count } => {
            for _ in 0..count {
                add_element(structs, elem, marked, leaves)?;
            }
        }
        VarTy::Pointer { .. } => {}
    }
    Ok(())
}

fn is_secret(marked: bool, field: &Field) -> bool
    ensures { result ≡ (marked || field.now.marked) }
{
    marked || field.marked
}
