// Reading the fields of a payload: each function gives a value and the bytes behind it.
ghost use Rattle.std.specs.Prelude.{◌≡◌, MatchOption};
ghost use Rattle.std.specs.Int.{w32, w64, w128};
ghost use Rattle.wire.specs.Reading.{Gives, byte_at, number_at, signed_at, truth_at, type_of, kind_of, cell_at, pointer_at, argument_at, typed_cell_at, result_at};

use crate::cell::{Arg, WireCell};
use crate::fault::ReadError;
use pt_base::{IntType, Trap};

#[tactic(auto, unfolding(crate::specs::Reading::byte_at))]
pub(crate) fn byte(bytes: &[u8]) -> Result<(u8, &[u8]), ReadError>
    ensures { Gives (λ x. (x.0, x.1.now)) result (byte_at bytes.now) }
{
    match bytes {
        [] => Err(ReadError::Bad),
        [first, rest @ ..] => Ok((*first, rest)),
    }
}

/// The number in the first four bytes and the bytes behind it, where there are four.
pub(crate) fn first_u32(bytes: &[u8]) -> Option<(u32, &[u8])>
    ensures { MatchOption result (number_at w32 bytes.now ≡ None) (λ x. number_at w32 bytes.now ≡ Some (x.0, x.1.now)) }
{
    if bytes.len() < 4 {
        return None;
    }
    let (front, rest) = bytes.split_at(4);
    let number = u32::from_be_bytes([front[0], front[1], front[2], front[3]]);
    Some((number, rest))
}

pub(crate) fn number_u32(bytes: &[u8]) -> Result<(u32, &[u8]), ReadError>
    ensures { Gives (λ x. (x.0, x.1.now)) result (number_at w32 bytes.now) }
{
    match first_u32(bytes) {
        Some(found) => Ok(found),
        None => Err(ReadError::Bad),
    }
}

pub(crate) fn number_u64(bytes: &[u8]) -> Result<(u64, &[u8]), ReadError>
    ensures { Gives (λ x. (x.0, x.1.now)) result (number_at w64 bytes.now) }
{
    if bytes.len() < 8 {
        return Err(ReadError::Bad);
    }
    let (front, rest) = bytes.split_at(8);
    let number = u64::from_be_bytes([
        front[0], front[1], front[2], front[3], front[4], front[5], front[6], front[7],
    ]);
    Ok((number, rest))
}

fn number_u128(bytes: &[u8]) -> Result<(u128, &[u8]), ReadError>
    ensures { Gives (λ x. (x.0, x.1.now)) result (number_at w128 bytes.now) }
{
    if bytes.len() < 16 {
        return Err(ReadError::Bad);
    }
    let (front, rest) = bytes.split_at(16);
    let number = u128::from_be_bytes([
        front[0], front[1], front[2], front[3], front[4], front[5], front[6], front[7], front[8],
        front[9], front[10], front[11], front[12], front[13], front[14], front[15],
    ]);
    Ok((number, rest))
}

#[tactic(auto, unfolding(crate::specs::Reading::signed_at))]
pub(crate) fn number_i32(bytes: &[u8]) -> Result<(i32, &[u8]), ReadError>
    ensures { Gives (λ x. (x.0, x.1.now)) result (signed_at w32 bytes.now) }
{
    let (number, rest) = number_u32(bytes)?;
    Ok((number.cast_signed(), rest))
}

#[tactic(auto, unfolding(crate::specs::Reading::signed_at))]
fn number_i128(bytes: &[u8]) -> Result<(i128, &[u8]), ReadError>
    ensures { Gives (λ x. (x.0, x.1.now)) result (signed_at w128 bytes.now) }
{
    let (number, rest) = number_u128(bytes)?;
    Ok((number.cast_signed(), rest))
}

#[tactic(auto, unfolding(crate::specs::Reading::truth_at))]
pub(crate) fn truth(bytes: &[u8]) -> Result<(bool, &[u8]), ReadError>
    ensures { Gives (λ x. (x.0, x.1.now)) result (truth_at bytes.now) }
{
    match bytes {
        [] => Err(ReadError::Bad),
        [0, rest @ ..] => Ok((false, rest)),
        [1, rest @ ..] => Ok((true, rest)),
        [_, ..] => Err(ReadError::Bad),
    }
}

const TYPES: [IntType; 9] = [
    IntType::Char,
    IntType::SChar,
    IntType::UChar,
    IntType::Short,
    IntType::UShort,
    IntType::Int,
    IntType::UInt,
    IntType::Long,
    IntType::ULong,
];

const KINDS: [Trap; 9] = [
    Trap::Overflow,
    Trap::DivZero,
    Trap::Shift,
    Trap::Bounds,
    Trap::Null,
    Trap::PtrRange,
    Trap::PtrCompare,
    Trap::Depth,
    Trap::NoReturn,
];

#[tactic(auto, unfolding(crate::specs::Reading::type_of))]
fn int_type(number: u8) -> Option<IntType>
    ensures { result ≡ type_of number }
{
    TYPES.get(number as usize).copied()
}

#[tactic(auto, unfolding(crate::specs::Reading::kind_of))]
pub(crate) fn trap_kind(number: u8) -> Option<Trap>
    ensures { result ≡ kind_of number }
{
    let place = number.checked_sub(1)?;
    KINDS.get(place as usize).copied()
}

#[tactic(auto, unfolding(crate::specs::Reading::cell_at))]
pub(crate) fn cell(bytes: &[u8]) -> Result<(WireCell, &[u8]), ReadError>
    ensures { Gives (λ x. (x.0, x.1.now)) result (cell_at bytes.now) }
{
    match bytes {
        [] => Err(ReadError::Bad),
        [0, rest @ ..] => {
            let (number, rest) = number_i128(rest)?;
            Ok((WireCell::Number(number), rest))
        }
        [1, rest @ ..] => {
            let (handle, rest) = number_u64(rest)?;
            Ok((WireCell::Sealed(handle), rest))
        }
        [_, ..] => Err(ReadError::Bad),
    }
}

#[tactic(auto, unfolding(crate::specs::Reading::pointer_at))]
fn pointer(bytes: &[u8]) -> Result<(Arg, &[u8]), ReadError>
    ensures { Gives (λ x. (x.0, x.1.now)) result (pointer_at bytes.now) }
{
    let (block, rest) = byte(bytes)?;
    let (base, rest) = number_u32(rest)?;
    let (count, rest) = number_u32(rest)?;
    let (index, rest) = number_u32(rest)?;
    let pointer = Arg::At {
        block,
        base,
        count,
        index,
    };
    Ok((pointer, rest))
}

#[tactic(auto, unfolding(crate::specs::Reading::argument_at))]
pub(crate) fn argument(bytes: &[u8]) -> Result<(Arg, &[u8]), ReadError>
    ensures { Gives (λ x. (x.0, x.1.now)) result (argument_at bytes.now) }
{
    match bytes {
        [] => Err(ReadError::Bad),
        [0, rest @ ..] => {
            let (number, rest) = number_i128(rest)?;
            Ok((Arg::Number(number), rest))
        }
        [1, rest @ ..] => {
            let (handle, rest) = number_u64(rest)?;
            Ok((Arg::Sealed(handle), rest))
        }
        [2, rest @ ..] => Ok((Arg::Null, rest)),
        [3, rest @ ..] => pointer(rest),
        [_, ..] => Err(ReadError::Bad),
    }
}

#[tactic(auto, unfolding(crate::specs::Reading::typed_cell_at))]
pub(crate) fn typed_cell(bytes: &[u8]) -> Result<((IntType, WireCell), &[u8]), ReadError>
    ensures { Gives (λ x. (x.0, x.1.now)) result (typed_cell_at bytes.now) }
{
    let (number, rest) = byte(bytes)?;
    let ty = int_type(number).ok_or(ReadError::Bad)?;
    let (found, rest) = cell(rest)?;
    Ok(((ty, found), rest))
}

#[tactic(auto, unfolding(crate::specs::Reading::result_at))]
pub(crate) fn call_result(bytes: &[u8]) -> Result<(Option<WireCell>, &[u8]), ReadError>
    ensures { Gives (λ x. (x.0, x.1.now)) result (result_at bytes.now) }
{
    match bytes {
        [] => Err(ReadError::Bad),
        [0, rest @ ..] => Ok((None, rest)),
        [1, rest @ ..] => {
            let (found, rest) = cell(rest)?;
            Ok((Some(found), rest))
        }
        [_, ..] => Err(ReadError::Bad),
    }
}
