// The types of expressions and places, by those of their parts.
ghost use Rattle.std.specs.Prelude.{◌≡◌};
ghost use Rattle.pt_int.specs.Operator as operator;

use pt_base::IntType;
use pt_int::{BinOp, UnOp};

/// The type of an operator's result, by that of its operand.
pub(crate) fn unary_type(op: UnOp, t: IntType) -> IntType
    ensures { result ≡ operator.unary_type op t }
{
    match op {
        UnOp::Not => IntType::Int,
        UnOp::Minus | UnOp::Plus | UnOp::Flip => t,
    }
}

/// The type of an operator's result, by that of its left operand.
pub(crate) fn binary_type(op: BinOp, t: IntType) -> IntType
    ensures { result ≡ operator.binary_type op t }
{
    match op {
        BinOp::Lt | BinOp::Gt | BinOp::Le | BinOp::Ge | BinOp::Eq | BinOp::Ne => IntType::Int,
        BinOp::Mul
        | BinOp::Div
        | BinOp::Rem
        | BinOp::Add
        | BinOp::Sub
        | BinOp::Shl
        | BinOp::Shr
        | BinOp::And
        | BinOp::Xor
        | BinOp::Or => t,
    }
}
