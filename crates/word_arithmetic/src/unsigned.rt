// The operators at an unsigned type, on its numbers.
#![tactic(auto, unfolding(pt_int::specs::Conversion::conv))]

ghost use Rattle.std.specs.Prelude.{◌≡◌, ◌^◌, ◌<◌, ◌+ℤ◌, ◌-ℤ◌, ◌*ℤ◌, pos, false, Bool, Ok, bit_and, bit_or, bit_xor};
ghost use Rattle.pt_base.specs.IntTypes.{width_of, is_signed, InRange};
ghost use Rattle.pt_int.specs.Conversion.{conv, bits_of, of_bits};
ghost use Rattle.pt_int.specs.Operator.{fitted, quotient_of, remainder_of, left_shift_of, right_shift_of};
ghost use Rattle.word_arithmetic.specs.Words.{IsWord, number_of, is_wide};

use crate::words::{low_bits, of_low_bits, shift_amount};
use pt_base::IntType;
use pt_int::all_ones;

/// A word's number in the type.
#[inline(always)]
pub(crate) fn natural(t: IntType, w: i64) -> u64
    requires { is_signed t ≡ false }
    ensures value { (wide : Bool) → pos result ≡ conv t (number_of wide w) }
    ensures range { InRange t (pos result) }
{
    low_bits(t, w)
}

/// `a + b`
#[inline(always)]
pub(crate) fn sum(t: IntType, a: u64, b: u64) -> i64
    requires { is_signed t ≡ false }
    ensures { fitted t (pos a +ℤ pos b) ≡ Ok (number_of (is_wide t) result) }
{
    wrapped(t, a.wrapping_add(b))
}

/// `a - b`
#[inline(always)]
pub(crate) fn difference(t: IntType, a: u64, b: u64) -> i64
    requires { is_signed t ≡ false }
    ensures { fitted t (pos a -ℤ pos b) ≡ Ok (number_of (is_wide t) result) }
{
    wrapped(t, a.wrapping_sub(b))
}

/// `a * b`
#[inline(always)]
pub(crate) fn product(t: IntType, a: u64, b: u64) -> i64
    requires { is_signed t ≡ false }
    ensures { fitted t (pos a *ℤ pos b) ≡ Ok (number_of (is_wide t) result) }
{
    wrapped(t, a.wrapping_mul(b))
}

/// `a / b`
#[inline(always)]
pub(crate) fn quotient(t: IntType, a: u64, b: u64) -> Option<i64>
    requires { is_signed t ≡ false }
    ensures { IsWord (is_wide t) result (quotient_of t (pos a) (pos b)) }
{
    if b == 0 {
        None
    } else {
        Some(wrapped(t, a / b))
    }
}

/// `a % b`
#[inline(always)]
pub(crate) fn remainder(t: IntType, a: u64, b: u64) -> Option<i64>
    requires kind { is_signed t ≡ false }
    requires left { InRange t (pos a) }
    ensures { IsWord (is_wide t) result (remainder_of t (pos a) (pos b)) }
{
    if b == 0 {
        None
    } else {
        Some(word_of(t, a % b))
    }
}

/// `a << b`
#[inline(always)]
pub(crate) fn left_shift(t: IntType, a: u64, b: i64) -> Option<i64>
    requires { is_signed t ≡ false }
    ensures { IsWord (is_wide t) result (left_shift_of t (pos a) b) }
{
    match shift_amount(t, b) {
        Some(amount) => Some(wrapped(t, a << amount)),
        None => None,
    }
}

/// `a >> b`
#[inline(always)]
pub(crate) fn right_shift(t: IntType, a: u64, b: i64) -> Option<i64>
    requires kind { is_signed t ≡ false }
    requires left { InRange t (pos a) }
    ensures { IsWord (is_wide t) result (right_shift_of t (pos a) b) }
{
    match shift_amount(t, b) {
        Some(amount) => Some(word_of(t, a >> amount)),
        None => None,
    }
}

/// `a & b`
#[inline(always)]
pub(crate) fn conjunction(t: IntType, a: u64, b: u64) -> i64
    requires left { InRange t (pos a) }
    requires right { InRange t (pos b) }
    ensures { number_of (is_wide t) result ≡ of_bits t (bit_and (bits_of t (pos a)) (bits_of t (pos b))) }
{
    of_low_bits(t, bits(t, a) & bits(t, b))
}

/// `a | b`
#[inline(always)]
pub(crate) fn disjunction(t: IntType, a: u64, b: u64) -> i64
    requires left { InRange t (pos a) }
    requires right { InRange t (pos b) }
    ensures { number_of (is_wide t) result ≡ of_bits t (bit_or (bits_of t (pos a)) (bits_of t (pos b))) }
{
    of_low_bits(t, bits(t, a) | bits(t, b))
}

/// `a ^ b`
#[inline(always)]
pub(crate) fn exclusion(t: IntType, a: u64, b: u64) -> i64
    requires left { InRange t (pos a) }
    requires right { InRange t (pos b) }
    ensures { number_of (is_wide t) result ≡ of_bits t (bit_xor (bits_of t (pos a)) (bits_of t (pos b))) }
{
    of_low_bits(t, bits(t, a) ^ bits(t, b))
}

// The bits of a number of the type.
#[inline(always)]
fn bits(t: IntType, n: u64) -> u64
    requires { InRange t (pos n) }
    ensures value { result ≡ bits_of t (pos n) }
    ensures range { result < 2 ^ width_of t }
{
    n
}

// The word for a number of the type.
#[inline(always)]
fn word_of(t: IntType, n: u64) -> i64
    requires kind { is_signed t ≡ false }
    requires range { InRange t (pos n) }
    ensures { number_of (is_wide t) result ≡ pos n }
{
    n.cast_signed()
}

// The word for the number modulo 2 to the width, from what 64 bits hold of it.
#[inline(always)]
fn wrapped(t: IntType, bits: u64) -> i64
    requires { is_signed t ≡ false }
    ensures { number_of (is_wide t) result ≡ conv t (pos bits) }
{
    word_of(t, bits & all_ones(t))
}
