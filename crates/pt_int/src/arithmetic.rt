// Arithmetic: on signed types as numbers of 64 bits with their sign, on unsigned types as
// numbers of 64 bits without.
#![tactic(auto, unfolding(crate::specs::Conversion::conv))]

ghost use Rattle.std.specs.Prelude.{◌≡◌, ◌^◌, ◌<◌, ◌+ℤ◌, ◌-ℤ◌, ◌*ℤ◌, ◌↔◌, pos, true, false, Err, FitsSigned, SomeIff, IsTrue, ℤ, MatchOption, unsigned_abs};
ghost use Rattle.std.specs.Int.{w64};
ghost use Rattle.pt_base.specs.IntTypes.{width_of, is_signed, InRange};
ghost use Rattle.pt_int.specs.Conversion.{conv};
ghost use Rattle.pt_int.specs.Operator.{fitted, quotient_of, remainder_of, left_shift_of, right_shift_of, is_amount, HasQuotient};

use crate::conversion::{all_ones, greatest, has_sign, least, width};
use pt_base::{IntType, Trap};

/// `a + b`
pub(crate) fn sum(t: IntType, a: i128, b: i128) -> Result<i128, Trap>
    requires left { InRange t a }
    requires right { InRange t b }
    ensures { result ≡ fitted t (a +ℤ b) }
{
    if has_sign(t) {
        settled(t, narrow(t, a).checked_add(narrow(t, b)))
    } else {
        Ok(wrapped(t, natural(t, a).wrapping_add(natural(t, b))))
    }
}

/// `a - b`
pub(crate) fn difference(t: IntType, a: i128, b: i128) -> Result<i128, Trap>
    requires left { InRange t a }
    requires right { InRange t b }
    ensures { result ≡ fitted t (a -ℤ b) }
{
    if has_sign(t) {
        settled(t, narrow(t, a).checked_sub(narrow(t, b)))
    } else {
        Ok(wrapped(t, natural(t, a).wrapping_sub(natural(t, b))))
    }
}

/// `a * b`
pub(crate) fn product(t: IntType, a: i128, b: i128) -> Result<i128, Trap>
    requires left { InRange t a }
    requires right { InRange t b }
    ensures { result ≡ fitted t (a *ℤ b) }
{
    if has_sign(t) {
        settled(t, narrow(t, a).checked_mul(narrow(t, b)))
    } else {
        Ok(wrapped(t, natural(t, a).wrapping_mul(natural(t, b))))
    }
}

/// `a / b`
pub(crate) fn quotient(t: IntType, a: i128, b: i128) -> Result<i128, Trap>
    requires left { InRange t a }
    requires right { InRange t b }
    ensures { result ≡ quotient_of t a b }
{
    if let Some(trap) = division_trap(t, a, b) {
        return Err(trap);
    }
    if has_sign(t) {
        Ok(i128::from(narrow(t, a) / narrow(t, b)))
    } else {
        Ok(i128::from(natural(t, a) / natural(t, b)))
    }
}

/// `a % b`
pub(crate) fn remainder(t: IntType, a: i128, b: i128) -> Result<i128, Trap>
    requires left { InRange t a }
    requires right { InRange t b }
    ensures { result ≡ remainder_of t a b }
{
    if let Some(trap) = division_trap(t, a, b) {
        return Err(trap);
    }
    if has_sign(t) {
        Ok(i128::from(narrow(t, a) % narrow(t, b)))
    } else {
        Ok(i128::from(natural(t, a) % natural(t, b)))
    }
}

// The trap of `a / b`: the one quotient that doesn't fit is that of the least number by -1.
fn division_trap(t: IntType, a: i128, b: i128) -> Option<Trap>
    requires left { InRange t a }
    requires right { InRange t b }
    ensures { MatchOption result (HasQuotient t a b) (λ trap. quotient_of t a b ≡ Err trap) }
{
    if b == 0 {
        Some(Trap::DivZero)
    } else if b == -1 && a == i128::from(least(t)) {
        Some(Trap::Overflow)
    } else {
        None
    }
}

/// `a << b`
pub(crate) fn left_shift(t: IntType, a: i128, b: i128) -> Result<i128, Trap>
    requires { InRange t a }
    ensures { result ≡ left_shift_of t a b }
{
    let Some(amount) = shift_amount(t, b) else {
        return Err(Trap::Shift);
    };
    if has_sign(t) {
        settled(t, scaled(narrow(t, a), amount))
    } else {
        Ok(wrapped(t, natural(t, a) << amount))
    }
}

/// `a >> b`
pub(crate) fn right_shift(t: IntType, a: i128, b: i128) -> Result<i128, Trap>
    requires { InRange t a }
    ensures { result ≡ right_shift_of t a b }
{
    let Some(amount) = shift_amount(t, b) else {
        return Err(Trap::Shift);
    };
    if has_sign(t) {
        Ok(i128::from(narrow(t, a) >> amount))
    } else {
        Ok(i128::from(natural(t, a) >> amount))
    }
}

// The number of bits to shift by.
fn shift_amount(t: IntType, b: i128) -> Option<u32>
    ensures { SomeIff result (IsTrue (is_amount t b)) (unsigned_abs b) }
{
    if 0 <= b && b < i128::from(width(t)) {
        Some(b as u32)
    } else {
        None
    }
}

// `v` times 2 to the `amount`, where 64 bits hold it.
fn scaled(v: i64, amount: u32) -> Option<i64>
    requires { amount < 64 }
    ensures { SomeIff result (FitsSigned w64 (v *ℤ pos (2 ^ amount))) (v *ℤ pos (2 ^ amount)) }
{
    if amount < 63 {
        v.checked_mul(1i64 << amount)
    } else {
        i64::try_from(i128::from(v) * (1i128 << amount)).ok()
    }
}

// A number of a signed type.
fn narrow(t: IntType, v: i128) -> i64
    requires kind { is_signed t ≡ true }
    requires range { InRange t v }
    ensures { result ≡ v }
{
    v as i64
}

// A number of an unsigned type.
fn natural(t: IntType, v: i128) -> u64
    requires kind { is_signed t ≡ false }
    requires range { InRange t v }
    ensures { pos result ≡ v }
{
    v as u64
}

// The number in the signed type, from what 64 bits hold of it.
fn settled(t: IntType, exact: Option<i64>) -> Result<i128, Trap>
    requires { is_signed t ≡ true }
    ensures { (z : ℤ) → SomeIff exact (FitsSigned w64 z) z → result ≡ fitted t z }
{
    match exact {
        Some(v) if holds(t, v) => Ok(i128::from(v)),
        _ => Err(Trap::Overflow),
    }
}

// Whether the signed type has the number.
fn holds(t: IntType, v: i64) -> bool
    requires { is_signed t ≡ true }
    ensures { IsTrue result ↔ InRange t v }
{
    let greatest = greatest(t) as i64;
    -1 - greatest <= v && v <= greatest
}

// The number modulo 2 to the width of the unsigned type, from what 64 bits hold of it.
fn wrapped(t: IntType, bits: u64) -> i128
    requires { is_signed t ≡ false }
    ensures { result ≡ conv t (pos bits) }
{
    i128::from(bits & all_ones(t))
}
