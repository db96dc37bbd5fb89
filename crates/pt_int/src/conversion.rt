// The integer types: promotion, the usual conversions, ranges and conversion.
ghost use Rattle.std.specs.Prelude.{◌≡◌, ◌↔◌, ◌^◌, ◌-◌, ◌<◌, IsTrue, pos};
ghost use Rattle.pt_base.specs.IntTypes.{width_of, is_signed, low_of, high_of, InRange, promoted, usual as usual_type};
ghost use Rattle.pt_int.specs.Conversion.{conv, bits_of, is_in_range, of_bits, IsConversion, IsOnlyConversion};

use pt_base::IntType;

/// The type of an operand after promotion: `int` for each type of fewer than 32 bits (C99 6.3.1.1p2).
pub fn promote(t: IntType) -> IntType
    ensures { result ≡ promoted t }
{
    match t {
        IntType::UInt | IntType::Long | IntType::ULong => t,
        _ => IntType::Int,
    }
}

/// The type in which operands of these types are computed with (C99 6.3.1.8).
pub fn usual(a: IntType, b: IntType) -> IntType
    ensures { result ≡ usual_type a b }
{
    match (promote(a), promote(b)) {
        (IntType::ULong, _) | (_, IntType::ULong) => IntType::ULong,
        (IntType::Long, _) | (_, IntType::Long) => IntType::Long,
        (IntType::UInt, _) | (_, IntType::UInt) => IntType::UInt,
        _ => IntType::Int,
    }
}

/// Whether `v` is a number of the type.
pub fn in_range(t: IntType, v: i128) -> bool
    ensures { IsTrue result ↔ InRange t v }
{
    i128::from(least(t)) <= v && v <= i128::from(greatest(t))
}

/// Whether `v` is a number of the type, as the test of it says.
pub fn is_in_range(t: IntType, v: i128) -> bool
    ensures { result ≡ is_in_range t v }
{
    in_range(t, v)
}

/// The number of the type that is equal to `v` modulo 2 to the width (C99 6.3.1.3): to a signed
/// type too, where it keeps the low bits.
#[tactic(auto, unfolding(crate::specs::Conversion::conv))]
pub fn convert(v: i128, t: IntType) -> i128
    ensures value { result ≡ conv t v }
    ensures rule { IsConversion t v result }
{
    of_low_bits(t, low_bits(t, v))
}

/// No two numbers of a type are equal modulo 2 to its width, so a number has one conversion.
pub fn conversion_is_one()
    ensures { IsOnlyConversion }
{}

/// The number of the type with these bits.
pub(crate) fn of_low_bits(t: IntType, bits: u64) -> i128
    requires { bits < 2 ^ width_of t }
    ensures { result ≡ of_bits t bits }
{
    if bits <= greatest(t) {
        i128::from(bits)
    } else {
        -1 - i128::from(all_ones(t) - bits)
    }
}

/// `v` modulo 2 to the width.
pub(crate) fn low_bits(t: IntType, v: i128) -> u64
    ensures { result ≡ bits_of t v }
{
    (v & i128::from(all_ones(t))) as u64
}

/// 2 to the width, less 1.
#[inline(always)]
pub fn all_ones(t: IntType) -> u64
    ensures { result ≡ 2 ^ width_of t - 1 }
{
    match t {
        IntType::Char | IntType::SChar | IntType::UChar => 0xff,
        IntType::Short | IntType::UShort => 0xffff,
        IntType::Int | IntType::UInt => 0xffff_ffff,
        IntType::Long | IntType::ULong => 0xffff_ffff_ffff_ffff,
    }
}

/// The number of bits of the type.
pub(crate) fn width(t: IntType) -> u32
    ensures { result ≡ width_of t }
{
    match t {
        IntType::Char | IntType::SChar | IntType::UChar => 8,
        IntType::Short | IntType::UShort => 16,
        IntType::Int | IntType::UInt => 32,
        IntType::Long | IntType::ULong => 64,
    }
}

/// Whether the type has numbers below 0.
#[inline(always)]
pub fn has_sign(t: IntType) -> bool
    ensures { result ≡ is_signed t }
{
    match t {
        IntType::Char | IntType::SChar | IntType::Short | IntType::Int | IntType::Long => true,
        IntType::UChar | IntType::UShort | IntType::UInt | IntType::ULong => false,
    }
}

/// The least number of the type.
pub(crate) fn least(t: IntType) -> i64
    ensures { result ≡ low_of t }
{
    match t {
        IntType::Char | IntType::SChar => -0x80,
        IntType::Short => -0x8000,
        IntType::Int => -0x8000_0000,
        IntType::Long => i64::MIN,
        IntType::UChar | IntType::UShort | IntType::UInt | IntType::ULong => 0,
    }
}

/// The greatest number of the type.
pub(crate) fn greatest(t: IntType) -> u64
    ensures { pos result ≡ high_of t }
{
    match t {
        IntType::Char | IntType::SChar => 0x7f,
        IntType::UChar => 0xff,
        IntType::Short => 0x7fff,
        IntType::UShort => 0xffff,
        IntType::Int => 0x7fff_ffff,
        IntType::UInt => 0xffff_ffff,
        IntType::Long => 0x7fff_ffff_ffff_ffff,
        IntType::ULong => 0xffff_ffff_ffff_ffff,
    }
}
