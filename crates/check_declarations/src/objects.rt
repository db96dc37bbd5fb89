// The types of objects and of functions' results (C99 6.7.5).
ghost use Rattle.std.specs.Prelude.{◌≡◌, ◌++◌, OnOk, unsigned_abs};
ghost use Rattle.check_declarations.specs.Cells.{counted};
ghost use Rattle.check_declarations.specs.Objects as is;

use crate::fault::{FaultKind, TypeFault, note_if};
use crate::specifiers::Specified;
use crate::structs::{MOST_CELLS, Structs, cells_of};
use pt_base::Span;
use pt_tree::{Elem, Suffix};
use std::alloc::AllocError;
use type_rules::Type;

/// The most cells that an object or a field may have.
const OBJECT_LIMIT: u32 = 65_536;

/// What an object is.
#[derive(Clone, Copy)]
pub enum ObjectKind {
    Global,
    Local,
    Field,
    Parameter,
}

impl ObjectKind {
    fn is_global(self) -> bool
        ensures { result ≡ is.is_global self }
    {
        matches!(self, ObjectKind::Global)
    }

    fn is_parameter(self) -> bool
        ensures { result ≡ is.is_parameter self }
    {
        matches!(self, ObjectKind::Parameter)
    }

    fn may_be_pointer(self) -> bool
        ensures { result ≡ is.may_be_pointer self }
    {
        matches!(self, ObjectKind::Local | ObjectKind::Parameter)
    }
}

fn is_void(ty: Type) -> bool
    ensures { result ≡ is.is_void ty }
{
    matches!(ty, Type::Void)
}

fn is_struct(ty: Type) -> bool
    ensures { result ≡ is.is_struct ty }
{
    matches!(ty, Type::Struct(_))
}

fn is_pointer(ty: Type) -> bool
    ensures { result ≡ is.is_pointer ty }
{
    matches!(ty, Type::Pointer { .. })
}

/// Whether an array stands behind the name.
fn is_array_form(suffix: Suffix) -> bool
    ensures { result ≡ is.is_array_form suffix }
{
    matches!(suffix, Suffix::Open | Suffix::Sized(_))
}

/// Whether an array's size is wanting where it must be, or isn't at least 1.
fn is_wrong_size(kind: ObjectKind, suffix: Suffix) -> bool
    ensures { result ≡ is.is_wrong_size kind suffix }
{
    match suffix {
        Suffix::Plain => false,
        Suffix::Open => !kind.is_parameter(),
        Suffix::Sized(size) => size.value < 1,
    }
}

/// Whether the object is void or points to void, or is a global that is extern.
fn is_wrong_base(kind: ObjectKind, given: &Specified) -> bool
    ensures { result ≡ is.is_wrong_base kind given.now }
{
    is_void(given.base) || kind.is_global() && given.external
}

/// Whether the object is a pointer where none may be, an array of pointers, has a wrong size, or
/// is a struct as a parameter.
fn is_wrong_form(kind: ObjectKind, base: Type, pointer: bool, suffix: Suffix) -> bool
    ensures { result ≡ is.is_wrong_form kind base pointer suffix }
{
    let wrong_pointer = pointer && (!kind.may_be_pointer() || is_array_form(suffix));
    let by_value = is_struct(base) && !(pointer || is_array_form(suffix));
    wrong_pointer || is_wrong_size(kind, suffix) || kind.is_parameter() && by_value
}

/// Adds the faults of an object's declaration: at the first specifier where its base is void, or
/// where a global is extern; at `at` where it is a pointer and may be none, an array of pointers,
/// an array without a size of at least 1 (a parameter may be without one), or a struct as a
/// parameter. Its size is no matter here.
pub fn note_object(
    faults: &mut Vec<TypeFault>,
    kind: ObjectKind,
    given: &Specified,
    pointer: bool,
    suffix: Suffix,
    at: Span,
) -> Result<(), AllocError>
    ensures { OnOk result (
        faults.new.items ≡ faults.old.items
        ++ is.object_faults kind given.now pointer suffix at) }
{
    let wrong_base = is_wrong_base(kind, given);
    let wrong_form = is_wrong_form(kind, given.base, pointer, suffix);
    note_if(faults, wrong_base, FaultKind::OutOfProfile, given.first)?;
    note_if(faults, wrong_form, FaultKind::OutOfProfile, at)
}

/// The type of an object, by what its specifiers say, whether `*` stands before its name, and what
/// stands behind it. It is Bad where [`note_object`] adds a fault, and where the base is Bad.
pub fn object_type(kind: ObjectKind, given: &Specified, pointer: bool, suffix: Suffix) -> Type
    ensures { result ≡ is.object_type kind given.now pointer suffix }
{
    let base = given.base;
    if is_wrong_base(kind, given) || is_wrong_form(kind, base, pointer, suffix) {
        return Type::Bad;
    }
    shaped(kind.is_parameter(), base, given.fixed, pointer, suffix)
}

/// The type that `*` and a suffix make of a base. A parameter of array form is a pointer
/// (C99 6.7.5.3p7).
fn shaped(parameter: bool, base: Type, fixed: bool, pointer: bool, suffix: Suffix) -> Type
    ensures { result ≡ is.shaped parameter base fixed pointer suffix }
{
    if pointer {
        return pointer_to(base, fixed);
    }
    match suffix {
        Suffix::Plain => base,
        Suffix::Open => pointer_to(base, fixed),
        Suffix::Sized(size) => {
            if parameter {
                pointer_to(base, fixed)
            } else {
                array_of(base, array_count(size.value))
            }
        }
    }
}

fn pointer_to(base: Type, fixed: bool) -> Type
    ensures { result ≡ is.pointer_to base fixed }
{
    match base {
        Type::Int(t) => Type::Pointer {
            elem: Elem::Int(t),
            fixed,
        },
        Type::Struct(n) => Type::Pointer {
            elem: Elem::Struct(n),
            fixed,
        },
        _ => Type::Bad,
    }
}

fn array_of(base: Type, count: u32) -> Type
    ensures { result ≡ is.array_of base count }
{
    match base {
        Type::Int(t) => Type::Array {
            elem: Elem::Int(t),
            count,
        },
        Type::Struct(n) => Type::Array {
            elem: Elem::Struct(n),
            count,
        },
        _ => Type::Bad,
    }
}

/// The elements of an array of this size, counted up to 1,048,577.
fn array_count(size: i128) -> u32
    ensures { result ≡ counted (unsigned_abs size) }
{
    size.unsigned_abs().min(u128::from(MOST_CELLS)) as u32
}

/// Whether the object itself is const: `const` is among its specifiers, and it is no pointer.
pub fn is_fixed(kind: ObjectKind, given: &Specified, pointer: bool, suffix: Suffix) -> bool
    ensures { result ≡ is.is_fixed kind given.now pointer suffix }
{
    given.fixed && !is_pointer(object_type(kind, given, pointer, suffix))
}

/// Adds a fault where an object or a field of this type has more than 65,536 cells.
pub fn note_size(
    faults: &mut Vec<TypeFault>,
    structs: &Structs,
    ty: Type,
    at: Span,
) -> Result<(), AllocError>
    ensures { OnOk result (
        faults.new.items ≡ faults.old.items
        ++ is.size_faults structs.now ty at) }
{
    let wrong = cells_of(structs, ty) > OBJECT_LIMIT;
    note_if(faults, wrong, FaultKind::TooLarge, at)
}

/// Whether a result is a pointer or a struct, or a function has the form of an array.
fn is_wrong_result(base: Type, pointer: bool, suffix: Suffix) -> bool
    ensures { result ≡ is.is_wrong_result base pointer suffix }
{
    pointer || is_struct(base) || is_array_form(suffix)
}

/// Adds a fault where a function's result is a pointer or a struct, or where the function has the
/// form of an array.
pub fn note_result(
    faults: &mut Vec<TypeFault>,
    given: &Specified,
    pointer: bool,
    suffix: Suffix,
    at: Span,
) -> Result<(), AllocError>
    ensures { OnOk result (
        faults.new.items ≡ faults.old.items
        ++ is.result_faults given.now pointer suffix at) }
{
    let wrong = is_wrong_result(given.base, pointer, suffix);
    note_if(faults, wrong, FaultKind::OutOfProfile, at)
}

/// The type of a function's result: an integer type, void, or Bad where [`note_result`] adds a
/// fault or the base is Bad.
pub fn result_type(given: &Specified, pointer: bool, suffix: Suffix) -> Type
    ensures { result ≡ is.result_type given.now pointer suffix }
{
    if is_wrong_result(given.base, pointer, suffix) {
        Type::Bad
    } else {
        given.base
    }
}

/// Whether a parameter is a pointer, by its `*` or the form of an array, whose pointee isn't const.
pub fn is_mutable_pointer(given: &Specified, pointer: bool, suffix: Suffix) -> bool
    ensures { result ≡ is.is_mutable_pointer given.now pointer suffix }
{
    (pointer || is_array_form(suffix)) && !given.fixed
}
