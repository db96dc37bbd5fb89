// The types of pointers and of what they point to.
ghost use Rattle.std.specs.Prelude.{◌≡◌};
ghost use Rattle.pt_core.specs.Types as types;

use pt_tree::Elem;
use typed_tree::{VarTy, type_of_elem};

/// As what an object is pointed to.
pub fn element_of(ty: VarTy) -> Elem
    ensures { result ≡ types.element_of ty }
{
    match ty {
        VarTy::Int(t) => Elem::Int(t),
        VarTy::Struct(n) => Elem::Struct(n),
        VarTy::Array { elem, .. } | VarTy::Pointer { elem, .. } => elem,
    }
}

/// What a pointer type points to, as an object; another type stays.
pub fn pointee_type(ty: VarTy) -> VarTy
    ensures { result ≡ types.pointee_type ty }
{
    match ty {
        VarTy::Pointer { elem, .. } => type_of_elem(elem),
        VarTy::Int(_) | VarTy::Struct(_) | VarTy::Array { .. } => ty,
    }
}
