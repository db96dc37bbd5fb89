// Tests of types. None is the type of what isn't well formed.
ghost use Rattle.std.specs.Prelude.{◌≡◌, Some};
ghost use Rattle.typed_tree.specs.TypeTests as tests;
ghost use Rattle.pt_core.specs.WellFormedExpression as well;
ghost use Rattle.pt_core.specs.WellFormedStatement as statement;
ghost use Rattle.code_rules.specs.Parts as is;

use pt_base::{IntType, same_int};
use pt_tree::Elem;
use typed_tree::{VarTy, same_elem, same_type};

/// Whether a value of this type may stand where one of the wanted type is to: a pointee may become
/// const.
pub(crate) fn stands_for(ty: VarTy, wanted: VarTy) -> bool
    ensures { result ≡ well.stands_for ty wanted }
{
    match ty {
        VarTy::Pointer { elem, fixed } => points_for(elem, fixed, wanted),
        VarTy::Int(_) | VarTy::Struct(_) | VarTy::Array { .. } => same_type(ty, wanted),
    }
}

// The same of a pointer.
fn points_for(pointee: Elem, constant: bool, wanted: VarTy) -> bool
    ensures { result ≡ well.stands_for (VarTy.Pointer pointee constant) wanted }
{
    match wanted {
        VarTy::Pointer { elem, fixed } => same_elem(pointee, elem) && (!constant || fixed),
        VarTy::Int(_) | VarTy::Struct(_) | VarTy::Array { .. } => false,
    }
}

/// Whether it is the type of a value that may stand where one of the wanted type is to.
pub(crate) fn stands(wanted: VarTy, ty: Option<VarTy>) -> bool
    ensures { result ≡ is.stands wanted ty }
{
    match ty {
        Some(ty) => stands_for(ty, wanted),
        None => false,
    }
}

/// Whether it is an integer's or a pointer's.
pub(crate) fn is_scalar(ty: Option<VarTy>) -> bool
    ensures { result ≡ tests.is_scalar ty }
{
    match ty {
        Some(VarTy::Int(_)) | Some(VarTy::Pointer { .. }) => true,
        Some(VarTy::Struct(_)) | Some(VarTy::Array { .. }) | None => false,
    }
}

/// Whether it is a struct's or an array's.
pub(crate) fn is_compound(ty: VarTy) -> bool
    ensures { result ≡ statement.is_compound ty }
{
    match ty {
        VarTy::Struct(_) | VarTy::Array { .. } => true,
        VarTy::Int(_) | VarTy::Pointer { .. } => false,
    }
}

/// The integer type, where it is one.
pub(crate) fn integer_of(ty: Option<VarTy>) -> Option<IntType>
    ensures { result ≡ tests.integer_of ty }
{
    match ty {
        Some(VarTy::Int(t)) => Some(t),
        Some(VarTy::Struct(_)) | Some(VarTy::Array { .. }) | Some(VarTy::Pointer { .. }) | None => {
            None
        }
    }
}

/// Whether it is this integer type, or any where none is wanted.
pub(crate) fn is_number(wanted: Option<IntType>, ty: Option<VarTy>) -> bool
    ensures { result ≡ is.is_number wanted ty }
{
    match wanted {
        Some(t) => has_type(ty, t),
        None => integer_of(ty).is_some(),
    }
}

// Whether it is this integer type.
fn has_type(ty: Option<VarTy>, wanted: IntType) -> bool
    ensures { result ≡ tests.same_types ty (Some (VarTy.Int wanted)) }
{
    match ty {
        Some(ty) => same_type(ty, VarTy::Int(wanted)),
        None => false,
    }
}

/// What a pointer points to, where it is one's.
pub(crate) fn pointee_of(ty: Option<VarTy>) -> Option<Elem>
    ensures { result ≡ tests.pointee_of ty }
{
    match ty {
        Some(VarTy::Pointer { elem, .. }) => Some(elem),
        Some(VarTy::Int(_)) | Some(VarTy::Struct(_)) | Some(VarTy::Array { .. }) | None => None,
    }
}

/// As what an object is pointed to, where it is no array and no pointer.
pub(crate) fn element_of(ty: Option<VarTy>) -> Option<Elem>
    ensures { result ≡ tests.element_of ty }
{
    match ty {
        Some(VarTy::Int(t)) => Some(Elem::Int(t)),
        Some(VarTy::Struct(n)) => Some(Elem::Struct(n)),
        Some(VarTy::Array { .. }) | Some(VarTy::Pointer { .. }) | None => None,
    }
}

/// What an array consists of, where it is one's.
pub(crate) fn item_of(ty: Option<VarTy>) -> Option<Elem>
    ensures { result ≡ tests.item_of ty }
{
    match ty {
        Some(VarTy::Array { elem, .. }) => Some(elem),
        Some(VarTy::Int(_)) | Some(VarTy::Struct(_)) | Some(VarTy::Pointer { .. }) | None => None,
    }
}

/// Whether both are there, and one type.
pub(crate) fn both_elem(a: Option<Elem>, b: Option<Elem>) -> bool
    ensures { result ≡ tests.both_elem a b }
{
    match (a, b) {
        (Some(a), Some(b)) => same_elem(a, b),
        _ => false,
    }
}

/// Whether both are there, and one type.
pub(crate) fn both_int(a: Option<IntType>, b: Option<IntType>) -> bool
    ensures { result ≡ tests.both_int a b }
{
    match (a, b) {
        (Some(a), Some(b)) => same_int(a, b),
        _ => false,
    }
}
