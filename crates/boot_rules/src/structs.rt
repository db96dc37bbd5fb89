// Types, and structs whose fields name earlier structs.
ghost use Rattle.std.specs.Prelude.{◌≡◌, Some};
ghost use Rattle.std.specs.List.{list_all};
ghost use Rattle.typed_tree.specs.WellFormed as well;
ghost use Rattle.typed_tree.specs.WellFormedExpression.{is_elem};
ghost use Rattle.boot_rules.specs.Structs as is;

use pt_tree::Elem;
use typed_tree::{Field, StructInfo, VarTy};

/// Whether each struct has a field, and its fields name earlier structs alone and are no pointers.
pub(crate) fn all_name_earlier(structs: &[StructInfo]) -> bool
    ensures { result ≡ is.all_name_earlier 0 structs.now }
{
    for (earlier, info) in structs.iter().enumerate() {
        if !name_earlier(earlier, info.fields.as_slice()) {
            return false;
        }
    }
    true
}

fn name_earlier(earlier: usize, fields: &[Field]) -> bool
    ensures { result ≡ is.name_earlier earlier fields.now }
{
    !fields.is_empty() && are_plain(earlier, fields)
}

fn are_plain(earlier: usize, fields: &[Field]) -> bool
    ensures { result ≡ list_all (λ f. well.is_plain_type earlier f.ty) fields.now }
{
    fields.iter().all(|field| is_plain(earlier, field.ty))
}

/// Whether it is the type of a field or a global among so many structs: no pointer, and an array has
/// an element.
pub(crate) fn is_plain(structs: usize, ty: VarTy) -> bool
    ensures { result ≡ well.is_plain_type structs ty }
{
    match ty {
        VarTy::Int(_) => true,
        VarTy::Struct(n) => (n as usize) < structs,
        VarTy::Array { elem, count } => is_element(structs, elem) && count >= 1,
        VarTy::Pointer { .. } => false,
    }
}

/// Whether it is the type of a variable among so many structs, which may be a pointer too.
pub(crate) fn is_variable(structs: usize, ty: VarTy) -> bool
    ensures { result ≡ well.is_variable_type structs ty }
{
    match ty {
        VarTy::Int(_) => true,
        VarTy::Struct(n) => (n as usize) < structs,
        VarTy::Array { elem, count } => is_element(structs, elem) && count >= 1,
        VarTy::Pointer { elem, .. } => is_element(structs, elem),
    }
}

fn is_element(structs: usize, elem: Elem) -> bool
    ensures { result ≡ is_elem structs (Some elem) }
{
    match elem {
        Elem::Int(_) => true,
        Elem::Struct(n) => (n as usize) < structs,
    }
}
