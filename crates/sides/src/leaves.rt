// The slots of an object, leaf by leaf.
ghost use Rattle.std.specs.Prelude.{◌≡◌, ◌++◌, ◌||◌, [], ◌∷◌, IfOk, OnOk, map};
ghost use Rattle.sides.specs.Leaves.{leaves_of, whole};
ghost use Rattle.sides.specs.LeafTables.{leaves_below, slot_behind, named_leaves, named_struct};
ghost use Rattle.sides.specs.Slots.{slot_of};

use crate::path::Path;
use crate::slots::{Owner, SlotInfo};
use pt_base::{FnId, next_number};
use pt_tree::Elem;
use std::alloc::{AllocError, Global};
use typed_tree::{Field, StructInfo, VarTy, fields_of};

// the struct whose leaves an element has
fn struct_of_elem(elem: Elem) -> Option<u32>
    ensures { result ≡ named_struct (VarTy.Array elem 0) }
{
    match elem {
        Elem::Int(_) => None,
        Elem::Struct(n) => Some(n),
    }
}

/// The struct whose leaves an object has, None where it has one.
pub fn struct_of(ty: VarTy) -> Option<u32>
    ensures { result ≡ named_struct ty }
{
    match ty {
        VarTy::Int(_) => None,
        VarTy::Struct(n) => Some(n),
        VarTy::Array { elem, .. } => struct_of_elem(elem),
        VarTy::Pointer { elem, .. } => struct_of_elem(elem),
    }
}

// whether a field lies under a marked one, or is marked
fn is_under(marked: bool, field: &Field) -> bool
    ensures { result ≡ (marked || field.now.marked) }
{
    marked || field.marked
}

// appends the slot of one leaf
fn add_leaf(
    alloc: Global,
    owner: Owner,
    path: &[u32],
    marked: bool,
    slots: &mut Vec<SlotInfo>,
) -> Result<(), AllocError>
    ensures { OnOk result (slots.new.items ≡ slots.old.items ++ slot_behind owner path.now marked whole ∷ []) }
{
    let path = Path::new(alloc, path)?;
    slots.push(SlotInfo {
        owner,
        path,
        marked,
    })?;
    Ok(())
}

// Appends the slots of an object behind this path, which has a marked field where `marked` holds.
// The leaves are those of the struct of this number, if it is below `bound`, else there is one.
fn add_behind(
    alloc: Global,
    structs: &[StructInfo],
    owner: Owner,
    of: Option<u32>,
    bound: usize,
    marked: bool,
    path: &mut Vec<u32>,
    slots: &mut Vec<SlotInfo>,
) -> Result<(), AllocError>
    ensures path { OnOk result (path.new.items ≡ path.old.items) }
    ensures slots { OnOk result (slots.new.items ≡ slots.old.items ++ map (slot_behind owner path.old.items marked) (named_leaves (leaves_below structs.now bound) of)) }
{
    let Some(n) = of else {
        return add_leaf(alloc, owner, path.as_slice(), marked, slots);
    };
    let inner = n as usize;
    if inner >= bound {
        return Ok(());
    }
    let mut number: u32 = 0;
    let fields = fields_of(structs, n);
    for field in fields {
        path.push(number)?;
        let under = is_under(marked, field);
        add_behind(
            alloc,
            structs,
            owner,
            struct_of(field.ty),
            inner,
            under,
            path,
            slots,
        )?;
        path.pop();
        number = next_number(number)?;
    }
    Ok(())
}

/// Appends the slots of an object of this type.
pub(crate) fn add_leaves(
    alloc: Global,
    structs: &[StructInfo],
    owner: Owner,
    ty: VarTy,
    slots: &mut Vec<SlotInfo>,
) -> Result<(), AllocError>
    ensures { OnOk result (slots.new.items ≡ slots.old.items ++ map (slot_of owner) (leaves_of structs.now ty)) }
{
    let mut path = Vec::new(alloc);
    let bound = structs.len();
    add_behind(
        alloc,
        structs,
        owner,
        struct_of(ty),
        bound,
        false,
        &mut path,
        slots,
    )
}

/// The slots of an object of this type, of what owner doesn't matter: for each leaf its path, and whether it lies
/// under a marked field.
pub fn leaves_like(
    alloc: Global,
    structs: &[StructInfo],
    ty: VarTy,
) -> Result<Vec<SlotInfo>, AllocError>
    ensures { IfOk result (λ v. v.items ≡ map (slot_of (Owner.Result (record { 0 = 0 }))) (leaves_of structs.now ty)) }
{
    let mut slots = Vec::new(alloc);
    add_leaves(alloc, structs, Owner::Result(FnId(0)), ty, &mut slots)?;
    Ok(slots)
}
