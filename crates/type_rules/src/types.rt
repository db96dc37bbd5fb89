// The types of objects and of expressions, and operands as values.
ghost use Rattle.std.specs.Prelude.{◌≡◌};
ghost use Rattle.type_rules.specs.Types as is;

use pt_base::IntType;
use pt_tree::Elem;

/// The type of an object or of an expression.
#[derive(Clone, Copy, Debug, PartialEq, Eq)]
pub enum Type {
    /// The type of what is faulty: it fits everywhere without a fault of its own.
    Bad,
    /// `void`
    Void,
    /// An integer type.
    Int(IntType),
    /// The struct of this number.
    Struct(u32),
    /// An array of so many elements.
    Array { elem: Elem, count: u32 },
    /// A pointer. `fixed` is a pointee that is const.
    Pointer { elem: Elem, fixed: bool },
}

impl Type {
    ghost use Rattle.std.specs.Prelude.{◌≡◌};
    ghost use Rattle.type_rules.specs.Types as is;

    /// Whether this is the type of what is faulty.
    pub(crate) fn is_bad(self) -> bool
        ensures { result ≡ is.is_bad self }
    {
        matches!(self, Type::Bad)
    }

    /// Whether this is an integer type.
    pub(crate) fn is_integer(self) -> bool
        ensures { result ≡ is.is_integer self }
    {
        matches!(self, Type::Int(_))
    }

    /// Whether this is an integer or a pointer type (C99 6.2.5p21).
    pub(crate) fn is_scalar(self) -> bool
        ensures { result ≡ is.is_scalar self }
    {
        matches!(self, Type::Int(_) | Type::Pointer { .. })
    }
}

/// An expression as a value: an array stands as the pointer that it decays to.
#[derive(Clone, Copy)]
pub struct Value {
    pub ty: Type,
    /// It is an integer constant of value 0; of a value that is no integer this means nothing.
    pub null: bool,
}

/// The type of an object's value (C99 6.3.2.1p3): an array gives a pointer to its elements, which
/// are const where the object is `fixed`; every other type stays.
pub fn value_type(ty: Type, fixed: bool) -> Type
    ensures { result ≡ is.value_type ty fixed }
{
    match ty {
        Type::Array { elem, .. } => Type::Pointer { elem, fixed },
        _ => ty,
    }
}

/// The type of an element.
pub fn elem_type(elem: Elem) -> Type
    ensures { result ≡ is.elem_type elem }
{
    match elem {
        Elem::Int(t) => Type::Int(t),
        Elem::Struct(number) => Type::Struct(number),
    }
}

/// Whether both are one type. `char` is neither `signed char` nor `unsigned char` (C99 6.2.5p15).
pub fn is_same_elem(a: Elem, b: Elem) -> bool
    ensures { result ≡ is.is_same_elem a b }
{
    match (a, b) {
        (Elem::Int(a), Elem::Int(b)) => is_same_int(a, b),
        (Elem::Struct(a), Elem::Struct(b)) => a == b,
        _ => false,
    }
}

/// Whether both are one type.
pub fn is_same_int(a: IntType, b: IntType) -> bool
    ensures { result ≡ is.is_same_int a b }
{
    a == b
}
