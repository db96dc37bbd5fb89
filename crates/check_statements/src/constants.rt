// The expressions that may be the values of cases and of globals: constants and negated constants.
ghost use Rattle.std.specs.Prelude.{◌≡◌, neg_ℤ};
ghost use Rattle.pt_base.specs.IntTypes.{InRange};
ghost use Rattle.pt_int.specs.Conversion.{conv};
ghost use Rattle.pt_tree.specs.ExpressionTree.{view_expr};
ghost use Rattle.check_statements.specs.Constants as is;

use pt_base::IntType;
use pt_int::{convert, promote};
use pt_tree::{Constant, Expr, PrefixOp};

/// The value of a constant, negated or not.
#[derive(Clone, Copy)]
pub struct Number {
    pub ty: IntType,
    pub value: i128,
}

/// The number that the expression spells: a constant, negated or not. None for any other expression.
pub(crate) fn number_of(e: &Expr) -> Option<Number>
    ensures { result ≡ is.number_of (view_expr e.now) }
{
    match e {
        Expr::Constant(c) => Some(Number {
            ty: c.ty,
            value: c.value,
        }),
        Expr::Prefix(_, op, operand) => signed_number(*op, constant_of(operand)),
        Expr::Name(_) => None,
        Expr::Cast(_, _, _, _) => None,
        Expr::Postfix(_, _, _) => None,
        Expr::Chain(_, _, _) => None,
        Expr::Choice(_, _, _, _) => None,
        Expr::Assign(_, _, _, _) => None,
    }
}

/// The constant that the expression is.
fn constant_of(e: &Expr) -> Option<Constant>
    ensures { result ≡ is.constant_of (view_expr e.now) }
{
    match e {
        Expr::Constant(c) => Some(*c),
        Expr::Prefix(_, _, _) => None,
        Expr::Name(_) => None,
        Expr::Cast(_, _, _, _) => None,
        Expr::Postfix(_, _, _) => None,
        Expr::Chain(_, _, _) => None,
        Expr::Choice(_, _, _, _) => None,
        Expr::Assign(_, _, _, _) => None,
    }
}

/// A constant behind `-`; None behind another operator.
fn signed_number(op: PrefixOp, c: Option<Constant>) -> Option<Number>
    ensures { result ≡ is.signed_number op c }
{
    match op {
        PrefixOp::Minus => minus_of(c),
        PrefixOp::AddressOf
        | PrefixOp::Dereference
        | PrefixOp::Plus
        | PrefixOp::Complement
        | PrefixOp::Not
        | PrefixOp::Increment
        | PrefixOp::Decrement => None,
    }
}

fn minus_of(c: Option<Constant>) -> Option<Number>
    ensures { result ≡ is.minus_of c }
{
    match c {
        Some(c) => Some(minus(c)),
        None => None,
    }
}

/// `-` computes in the promoted type (C99 6.5.3.3p3).
fn minus(c: Constant) -> Number
    ensures { result ≡ is.minus c }
{
    let ty = promote(c.ty);
    Number {
        ty,
        value: converted_minus(ty, convert(c.value, ty)),
    }
}

/// The number of the type that is `-v` modulo 2 to the width.
fn converted_minus(ty: IntType, v: i128) -> i128
    requires { InRange ty v }
    ensures { result ≡ conv ty (neg_ℤ v) }
{
    convert(-v, ty)
}
