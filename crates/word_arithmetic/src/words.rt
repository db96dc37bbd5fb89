// Words, the numbers that they stand for, and conversions.
#![tactic(auto, unfolding(pt_int::specs::Conversion::conv))]

ghost use Rattle.std.specs.Prelude.{◌≡◌, ◌^◌, ◌-◌, ◌<◌, Bool, MatchOption, pos, SomeIff, IfSome, IsTrue, unsigned_abs};
ghost use Rattle.pt_base.specs.IntTypes.{width_of, InRange};
ghost use Rattle.pt_int.specs.Conversion.{conv, bits_of, of_bits};
ghost use Rattle.pt_int.specs.Operator.{is_amount};
ghost use Rattle.word_arithmetic.specs.Words.{number_of, is_wide, word_type};

use pt_base::IntType;
use pt_int::all_ones;

/// The number that a word stands for; `wide` says that it is of type unsigned long.
#[inline(always)]
pub fn number(w: i64, wide: bool) -> i128
    ensures { result ≡ number_of wide w }
{
    if wide {
        i128::from(w.cast_unsigned())
    } else {
        i128::from(w)
    }
}

/// The word that stands for a number, if there is one.
#[inline(always)]
pub fn word(v: i128, wide: bool) -> Option<i64>
    ensures { MatchOption result (InRange (word_type wide) v → ⊥) (λ w. number_of wide w ≡ v) }
{
    if wide {
        wide_word(v)
    } else {
        i64::try_from(v).ok()
    }
}

// The word of type unsigned long.
#[inline(always)]
fn wide_word(v: i128) -> Option<i64>
    ensures { MatchOption result (InRange (word_type Bool.true) v → ⊥) (λ w. number_of Bool.true w ≡ v) }
{
    match u64::try_from(v) {
        Ok(bits) => Some(bits.cast_signed()),
        Err(_) => None,
    }
}

/// A word converted to a type (C99 6.3.1.3): the number of its low bits.
#[inline(always)]
pub fn converted(w: i64, to: IntType) -> i64
    ensures { (from : Bool) → number_of (is_wide to) result ≡ conv to (number_of from w) }
{
    of_low_bits(to, low_bits(to, w))
}

/// The low bits of a word, as many as the type has.
#[inline(always)]
pub(crate) fn low_bits(t: IntType, w: i64) -> u64
    ensures value { (wide : Bool) → result ≡ bits_of t (number_of wide w) }
    ensures range { result < 2 ^ width_of t }
{
    w.cast_unsigned() & all_ones(t)
}

/// The word for the number of the type with these bits.
#[inline(always)]
pub(crate) fn of_low_bits(t: IntType, bits: u64) -> i64
    requires { bits < 2 ^ width_of t }
    ensures { number_of (is_wide t) result ≡ of_bits t bits }
{
    match t {
        IntType::Char | IntType::SChar => i64::from((bits as u8).cast_signed()),
        IntType::Short => i64::from((bits as u16).cast_signed()),
        IntType::Int => i64::from((bits as u32).cast_signed()),
        IntType::UChar | IntType::UShort | IntType::UInt | IntType::Long | IntType::ULong => {
            bits.cast_signed()
        }
    }
}

/// The number of bits to shift by.
#[inline(always)]
pub(crate) fn shift_amount(t: IntType, b: i64) -> Option<u32>
    ensures amount { SomeIff result (IsTrue (is_amount t b)) (unsigned_abs b) }
    ensures bound { IfSome result (λ n. n < 64) }
{
    let width = match t {
        IntType::Char | IntType::SChar | IntType::UChar => 8,
        IntType::Short | IntType::UShort => 16,
        IntType::Int | IntType::UInt => 32,
        IntType::Long | IntType::ULong => 64,
    };
    if 0 <= b && b < width {
        Some(b as u32)
    } else {
        None
    }
}
