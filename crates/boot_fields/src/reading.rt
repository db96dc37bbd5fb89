// Reading numbers, byte strings and what has one byte: each function gives a value and the bytes behind it.
ghost use Rattle.std.specs.Prelude.{◌≡◌, slice_get};
ghost use Rattle.std.specs.Int.{w32, w64, w128};
ghost use Rattle.wire.specs.Reading.{types};
ghost use Rattle.boot_fields.specs.Reading.{Gives, unary_ops, binary_ops, byte_at, number32_at, number64_at, signed128_at, truth_at, text_at, int_type_at, span_at, unary_op_at, binary_op_at};

use crate::fault::ReadError;
use pt_base::{Bytes, IntType, Span};
use pt_int::{BinOp, UnOp};
use std::alloc::Global;

/// A byte.
#[tactic(auto, unfolding(crate::specs::Reading::byte_at))]
pub fn byte(bytes: &[u8]) -> Result<(u8, &[u8]), ReadError>
    ensures { Gives (λ x. (x.0, x.1.now)) result (byte_at bytes.now) }
{
    match bytes {
        [] => Err(ReadError::Bad),
        [first, rest @ ..] => Ok((*first, rest)),
    }
}

/// A number in four bytes, the highest first.
#[tactic(auto, unfolding(crate::specs::Reading::number32_at))]
pub fn number_u32(bytes: &[u8]) -> Result<(u32, &[u8]), ReadError>
    ensures { Gives (λ x. (x.0, x.1.now)) result (number32_at bytes.now) }
{
    if bytes.len() < 4 {
        return Err(ReadError::Bad);
    }
    let (front, rest) = bytes.split_at(4);
    let number = u32::from_be_bytes([front[0], front[1], front[2], front[3]]);
    Ok((number, rest))
}

/// A number in eight bytes, the highest first.
#[tactic(auto, unfolding(crate::specs::Reading::number64_at))]
pub fn number_u64(bytes: &[u8]) -> Result<(u64, &[u8]), ReadError>
    ensures { Gives (λ x. (x.0, x.1.now)) result (number64_at bytes.now) }
{
    if bytes.len() < 8 {
        return Err(ReadError::Bad);
    }
    let (front, rest) = bytes.split_at(8);
    let number = u64::from_be_bytes([
        front[0], front[1], front[2], front[3], front[4], front[5], front[6], front[7],
    ]);
    Ok((number, rest))
}

/// A number in sixteen bytes of two's complement, the highest first.
#[tactic(auto, unfolding(crate::specs::Reading::signed128_at, wire::specs::Reading::signed_at))]
pub fn number_i128(bytes: &[u8]) -> Result<(i128, &[u8]), ReadError>
    ensures { Gives (λ x. (x.0, x.1.now)) result (signed128_at bytes.now) }
{
    if bytes.len() < 16 {
        return Err(ReadError::Bad);
    }
    let (front, rest) = bytes.split_at(16);
    let number = u128::from_be_bytes([
        front[0], front[1], front[2], front[3], front[4], front[5], front[6], front[7], front[8],
        front[9], front[10], front[11], front[12], front[13], front[14], front[15],
    ]);
    Ok((number.cast_signed(), rest))
}

/// A truth value: 1 for true and 0 for false.
#[tactic(auto, unfolding(crate::specs::Reading::truth_at))]
pub fn truth(bytes: &[u8]) -> Result<(bool, &[u8]), ReadError>
    ensures { Gives (λ x. (x.0, x.1.now)) result (truth_at bytes.now) }
{
    match bytes {
        [] => Err(ReadError::Bad),
        [0, rest @ ..] => Ok((false, rest)),
        [1, rest @ ..] => Ok((true, rest)),
        [_, ..] => Err(ReadError::Bad),
    }
}

/// A byte string behind its length. A length that is larger than what is there takes no memory.
///
/// # Errors
///
/// `Bad` where the bytes are fewer, and `Memory` where memory ran out.
#[tactic(auto, unfolding(crate::specs::Reading::text_at))]
pub fn text(alloc: Global, bytes: &[u8]) -> Result<(Bytes, &[u8]), ReadError>
    ensures { Gives (λ x. (x.0, x.1.now)) result (text_at bytes.now) }
{
    let (length, rest) = number_u64(bytes)?;
    if (rest.len() as u64) < length {
        return Err(ReadError::Bad);
    }
    let (front, rest) = rest.split_at(length as usize);
    let text = Bytes::new(Vec::from_slice(alloc, front)?);
    Ok((text, rest))
}

/// The two ends of a span.
#[tactic(auto, unfolding(crate::specs::Reading::span_at))]
pub fn span(bytes: &[u8]) -> Result<(Span, &[u8]), ReadError>
    ensures { Gives (λ x. (x.0, x.1.now)) result (span_at bytes.now) }
{
    let (from, rest) = number_u32(bytes)?;
    let (to, rest) = number_u32(rest)?;
    Ok((Span { from, to }, rest))
}

const TYPES: [IntType; 9] = [
    IntType::Char,
    IntType::SChar,
    IntType::UChar,
    IntType::Short,
    IntType::UShort,
    IntType::Int,
    IntType::UInt,
    IntType::Long,
    IntType::ULong,
];

const UNARY: [UnOp; 4] = [UnOp::Minus, UnOp::Plus, UnOp::Flip, UnOp::Not];

const BINARY: [BinOp; 16] = [
    BinOp::Mul,
    BinOp::Div,
    BinOp::Rem,
    BinOp::Add,
    BinOp::Sub,
    BinOp::Shl,
    BinOp::Shr,
    BinOp::Lt,
    BinOp::Gt,
    BinOp::Le,
    BinOp::Ge,
    BinOp::Eq,
    BinOp::Ne,
    BinOp::And,
    BinOp::Xor,
    BinOp::Or,
];

fn type_of(number: u8) -> Option<IntType>
    ensures { result ≡ slice_get types number }
{
    TYPES.get(number as usize).copied()
}

fn unary_of(number: u8) -> Option<UnOp>
    ensures { result ≡ slice_get unary_ops number }
{
    UNARY.get(number as usize).copied()
}

fn binary_of(number: u8) -> Option<BinOp>
    ensures { result ≡ slice_get binary_ops number }
{
    BINARY.get(number as usize).copied()
}

/// An integer type, by its place among them.
#[tactic(auto, unfolding(crate::specs::Reading::int_type_at))]
pub fn int_type(bytes: &[u8]) -> Result<(IntType, &[u8]), ReadError>
    ensures { Gives (λ x. (x.0, x.1.now)) result (int_type_at bytes.now) }
{
    match bytes {
        [] => Err(ReadError::Bad),
        [first, rest @ ..] => {
            let ty = type_of(*first).ok_or(ReadError::Bad)?;
            Ok((ty, rest))
        }
    }
}

/// A unary operator, by its place among them.
#[tactic(auto, unfolding(crate::specs::Reading::unary_op_at))]
pub fn unary_op(bytes: &[u8]) -> Result<(UnOp, &[u8]), ReadError>
    ensures { Gives (λ x. (x.0, x.1.now)) result (unary_op_at bytes.now) }
{
    match bytes {
        [] => Err(ReadError::Bad),
        [first, rest @ ..] => {
            let op = unary_of(*first).ok_or(ReadError::Bad)?;
            Ok((op, rest))
        }
    }
}

/// A binary operator, by its place among them.
#[tactic(auto, unfolding(crate::specs::Reading::binary_op_at))]
pub fn binary_op(bytes: &[u8]) -> Result<(BinOp, &[u8]), ReadError>
    ensures { Gives (λ x. (x.0, x.1.now)) result (binary_op_at bytes.now) }
{
    match bytes {
        [] => Err(ReadError::Bad),
        [first, rest @ ..] => {
            let op = binary_of(*first).ok_or(ReadError::Bad)?;
            Ok((op, rest))
        }
    }
}
