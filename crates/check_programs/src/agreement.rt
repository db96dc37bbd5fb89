// When two declarations of one function agree (C99 6.7.5.3p15).
ghost use Rattle.std.specs.Prelude.{◌≡◌};
ghost use Rattle.check_programs.specs.Functions as is;

use check_expressions::Callable;
use type_rules::{Type, is_same_elem, is_same_int};

/// Whether the types of two declarations are one. What is faulty agrees with everything.
pub(crate) fn agree(a: Type, b: Type) -> bool
    ensures { result ≡ is.agree a b }
{
    match (a, b) {
        (Type::Bad, _) | (_, Type::Bad) => true,
        (Type::Void, Type::Void) => true,
        (Type::Int(t), Type::Int(u)) => is_same_int(t, u),
        (Type::Struct(m), Type::Struct(n)) => m == n,
        (
            Type::Array { elem, count },
            Type::Array {
                elem: other,
                count: further,
            },
        ) => is_same_elem(elem, other) && count == further,
        (
            Type::Pointer { elem, fixed },
            Type::Pointer {
                elem: other,
                fixed: also,
            },
        ) => is_same_elem(elem, other) && fixed == also,
        _ => false,
    }
}

/// Whether the types of two lists agree, one by one.
fn all_agree(a: &[Type], b: &[Type]) -> bool
    ensures { result ≡ is.all_agree a.now b.now }
{
    match a {
        [] => match b {
            [] => true,
            [_, ..] => false,
        },
        [t, ts @ ..] => match b {
            [] => false,
            [u, us @ ..] => agree(*t, *u) && all_agree(ts, us),
        },
    }
}

/// Whether two declarations of a function have other types.
pub(crate) fn differ(f: &Callable, g: &Callable) -> bool
    ensures { result ≡ is.differ f.now g.now }
{
    !(agree(f.result, g.result) && all_agree(f.params.as_slice(), g.params.as_slice()))
}
