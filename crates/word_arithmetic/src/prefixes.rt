// The operators of one word.
#![tactic(auto, unfolding(pt_int::specs::Operator::unary_of))]

ghost use Rattle.std.specs.Prelude.{◌≡◌, ◌-◌, ◌^◌, neg_ℤ, pos, true, false, Bool, Ok, bit_xor};
ghost use Rattle.pt_base.specs.IntTypes.{width_of};
ghost use Rattle.pt_int.specs.Conversion.{conv, bits_of, of_bits};
ghost use Rattle.pt_int.specs.Operator.{unary_of, fitted};
ghost use Rattle.word_arithmetic.specs.Words.{IsWord, number_of, is_wide, PrefixGivesWord};

use crate::words::{low_bits, of_low_bits};
use crate::{converted, signed, unsigned};
use pt_base::IntType;
use pt_int::{UnOp, all_ones, has_sign};

/// `op a` at a type. Nothing where it traps: where `-` of the least number isn't a number of it.
#[inline(always)]
pub fn prefix(op: UnOp, ty: IntType, a: i64) -> Option<i64>
    ensures { PrefixGivesWord op ty a result }
{
    match op {
        UnOp::Minus => negated(ty, a),
        UnOp::Plus => Some(converted(a, ty)),
        UnOp::Flip => Some(flipped(ty, converted(a, ty))),
        UnOp::Not => Some(i64::from(a == 0)),
    }
}

// `-a`
#[inline(always)]
fn negated(t: IntType, a: i64) -> Option<i64>
    ensures { (wide : Bool) → IsWord (is_wide t) result (fitted t (neg_ℤ (conv t (number_of wide a)))) }
{
    if has_sign(t) {
        signed::difference(t, 0, signed::integer(t, a))
    } else {
        Some(unsigned::difference(t, 0, unsigned::natural(t, a)))
    }
}

// `~a` of a word of the type.
#[inline(always)]
fn flipped(t: IntType, a: i64) -> i64
    ensures { number_of (is_wide t) result ≡ of_bits t (bit_xor (bits_of t (number_of (is_wide t) a)) (2 ^ width_of t - 1)) }
{
    of_low_bits(t, low_bits(t, a) ^ all_ones(t))
}
