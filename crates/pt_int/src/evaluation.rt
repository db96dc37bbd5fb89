// What an operator gives: a number, or a trap.
#![tactic(auto, unfolding(crate::specs::Operator::binary_of, crate::specs::Operator::unary_of))]

ghost use Rattle.std.specs.Prelude.{◌≡◌, false, IfOk};
ghost use Rattle.pt_base.specs.IntTypes.{InRange};
ghost use Rattle.pt_int.specs.Operator.{binary_of, unary_of, binary_type, unary_type, is_shift};

use crate::arithmetic::{difference, left_shift, product, quotient, remainder, right_shift, sum};
use crate::conversion::{all_ones, low_bits, of_low_bits};
use crate::{BinOp, UnOp};
use pt_base::{IntType, Trap};

/// `a op b` of numbers of the type `t`, which is the promoted type of the left operand at a shift
/// and else the common type of both. At a shift `b` may be a number of any type.
///
/// Errors: DivZero where `/` or `%` divides by 0; Shift where the amount isn't from 0 to the
/// width less 1; Overflow where the result, and for `%` the quotient, isn't a number of a
/// signed `t` (C99 6.5.5 to 6.5.12).
pub fn binary(op: BinOp, t: IntType, a: i128, b: i128) -> Result<i128, Trap>
    requires left { InRange t a }
    requires right { is_shift op ≡ false → InRange t b }
    ensures value { result ≡ binary_of op t a b }
    ensures range { IfOk result (InRange (binary_type op t)) }
{
    match op {
        BinOp::Mul => product(t, a, b),
        BinOp::Div => quotient(t, a, b),
        BinOp::Rem => remainder(t, a, b),
        BinOp::Add => sum(t, a, b),
        BinOp::Sub => difference(t, a, b),
        BinOp::Shl => left_shift(t, a, b),
        BinOp::Shr => right_shift(t, a, b),
        BinOp::Lt => Ok(i128::from(a < b)),
        BinOp::Gt => Ok(i128::from(a > b)),
        BinOp::Le => Ok(i128::from(a <= b)),
        BinOp::Ge => Ok(i128::from(a >= b)),
        BinOp::Eq => Ok(i128::from(a == b)),
        BinOp::Ne => Ok(i128::from(a != b)),
        BinOp::And => Ok(a & b),
        BinOp::Xor => Ok(a ^ b),
        BinOp::Or => Ok(a | b),
    }
}

/// `op a` of a number of the promoted type `t`.
///
/// Errors: Overflow where `-` of the least number isn't a number of a signed `t` (C99 6.5.3.3).
pub fn unary(op: UnOp, t: IntType, a: i128) -> Result<i128, Trap>
    requires { InRange t a }
    ensures value { result ≡ unary_of op t a }
    ensures range { IfOk result (InRange (unary_type op t)) }
{
    match op {
        UnOp::Minus => difference(t, 0, a),
        UnOp::Plus => Ok(a),
        UnOp::Flip => Ok(of_low_bits(t, low_bits(t, a) ^ all_ones(t))),
        UnOp::Not => Ok(i128::from(a == 0)),
    }
}
