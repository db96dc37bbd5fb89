// Where fields lie that are marked `priv`.
ghost use Rattle.std.specs.Prelude.{◌≡◌, IfOk};
ghost use Rattle.std.specs.List.{list_any};
ghost use Rattle.monitor_labels.specs.Seeds as is;

use pt_tree::Elem;
use std::alloc::{AllocError, Global};
use typed_tree::{Field, StructInfo, Var, VarTy};

// what is known of the struct of this number
fn struct_is_marked(known: &[bool], structure: u32) -> bool
    ensures { result ≡ is.elem_is_marked known.now (Elem.Struct structure) }
{
    match known.get(structure as usize) {
        Some(marked) => *marked,
        None => false,
    }
}

// whether a marked field lies in such an element
fn elem_is_marked(known: &[bool], elem: Elem) -> bool
    ensures { result ≡ is.elem_is_marked known.now elem }
{
    match elem {
        Elem::Int(_) => false,
        Elem::Struct(structure) => struct_is_marked(known, structure),
    }
}

// whether a marked field lies in it, or in what it points to
fn type_is_marked(known: &[bool], ty: VarTy) -> bool
    ensures { result ≡ is.type_is_marked known.now ty }
{
    match ty {
        VarTy::Int(_) => false,
        VarTy::Struct(structure) => struct_is_marked(known, structure),
        VarTy::Array { elem, .. } => elem_is_marked(known, elem),
        VarTy::Pointer { elem, .. } => elem_is_marked(known, elem),
    }
}

// whether a field is marked, or has a marked one
fn field_is_marked(known: &[bool], field: &Field) -> bool
    ensures { result ≡ is.field_is_marked known.now field.now }
{
    field.marked || type_is_marked(known, field.ty)
}

// whether one of these fields is
fn any_is_marked(known: &[bool], fields: &[Field]) -> bool
    ensures { result ≡ list_any (is.field_is_marked known.now) fields.now }
{
    for field in fields {
        if field_is_marked(known, field) {
            return true;
        }
    }
    false
}

/// Of each struct, whether a marked field lies in it. Time is linear in the structs.
pub(crate) fn marked_structs(alloc: Global, structs: &[StructInfo]) -> Result<Vec<bool>, AllocError>
    ensures { IfOk result (λ known. known.items ≡ is.marked_structs structs.now) }
{
    let mut known = Vec::with_capacity(alloc, structs.len())?;
    for info in structs {
        let marked = any_is_marked(&known, info.fields.as_slice());
        known.push(marked)?;
    }
    Ok(known)
}

/// Whether a variable or global is marked, or a marked field lies in it or in what it points to.
pub(crate) fn begins_secret(known: &[bool], var: &Var) -> bool
    ensures { result ≡ is.begins_secret known.now var.now }
{
    var.marked || type_is_marked(known, var.ty)
}
