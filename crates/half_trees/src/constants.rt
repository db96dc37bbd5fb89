// Constants, and conversions to integer types.
ghost use Rattle.std.specs.Prelude.{◌≡◌, IfOk, pos};
ghost use Rattle.pt_tree.specs.ExpressionTree.{constant, view_expr};
ghost use Rattle.half_trees.specs.Expressions as trees;
ghost use Rattle.half_trees.specs.Names as names;

use crate::names::NOWHERE;
use crate::specifiers::push_int;
use pt_base::IntType;
use pt_tree::{Constant, Expr, PrefixOp};
use std::alloc::{AllocError, Global};

// A constant of a type.
fn constant(t: IntType, value: i128) -> Expr
    ensures { view_expr result ≡ constant (record { span = names.nowhere; value = value; ty = t }) }
{
    Expr::Constant(Constant {
        span: NOWHERE,
        value,
        ty: t,
    })
}

/// A number of a type with constants of its own.
pub(crate) fn number(t: IntType, n: u32) -> Expr
    ensures { view_expr result ≡ trees.number t n }
{
    constant(t, i128::from(n))
}

// A number of a type with constants of its own, below 0 as `~` of one.
fn wide_constant(alloc: Global, t: IntType, value: i128) -> Result<Expr, AllocError>
    ensures { IfOk result (λ e. view_expr e ≡ trees.wide_constant t value) }
{
    if value < 0 {
        Expr::prefixed(
            alloc,
            NOWHERE,
            PrefixOp::Complement,
            constant(t, -1 - value),
        )
    } else {
        Ok(constant(t, value))
    }
}

/// A cast to an integer type.
pub(crate) fn cast_to(alloc: Global, t: IntType, a: Expr) -> Result<Expr, AllocError>
    ensures { IfOk result (λ e. view_expr e ≡ trees.cast_to t (view_expr a)) }
{
    let mut specs = Vec::new(alloc);
    push_int(t, &mut specs)?;
    Expr::cast(alloc, NOWHERE, specs, false, a)
}

/// A number of a type; one of a type narrower than int is cast to it.
pub(crate) fn constant_tree(alloc: Global, t: IntType, value: i128) -> Result<Expr, AllocError>
    ensures { IfOk result (λ e. view_expr e ≡ trees.constant_tree t value) }
{
    match t {
        IntType::Char | IntType::SChar | IntType::UChar | IntType::Short | IntType::UShort => {
            let wide = wide_constant(alloc, IntType::Int, value)?;
            cast_to(alloc, t, wide)
        }
        IntType::Int | IntType::UInt | IntType::Long | IntType::ULong => {
            wide_constant(alloc, t, value)
        }
    }
}

/// The number 0.
pub(crate) fn zero_tree() -> Expr
    ensures { view_expr result ≡ trees.zero_tree }
{
    number(IntType::Int, 0)
}
