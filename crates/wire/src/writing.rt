// Writing messages, and the numbers that they are made of: a `put_` function appends a value, and fails where memory
// ran out.
ghost use Rattle.std.specs.Prelude.{◌≡◌, ◌++◌, ◌<◌, ◌^◌, ◌≤◌, ◌∷◌, [], length, FitsSigned, OnOk, OnErr, IfSome};
ghost use Rattle.std.specs.Int.{w32, w128};
ghost use Rattle.std.specs.List.{flat_map, AllByRecursion};
ghost use Rattle.wire.specs.Spelling.{four_bytes, eight_bytes, four_signed_bytes, sixteen_signed_bytes, truth_byte, kind_byte, type_byte, cell_bytes, argument_bytes, typed_cell_bytes, block_bytes, call_bytes, result_bytes, reply_bytes, payload, spelling};
ghost use Rattle.wire.specs.Limits.{IsBytes, FitsCell, FitsArgument, FitsTypedCell, FitsBlock, FitsCall, FitsReply, FitsTypes, IsBlock, IsCall, KeepsLimits, Spells};

use crate::cell::{Arg, WireCell};
use crate::lists::Block;
use crate::message::{CallBody, Message, ReplyBody};
use pt_base::{IntType, Trap};
use std::alloc::{AllocError, Global};

// Most messages have fewer bytes, so that their bytes are moved to larger room seldom.
const ROOM: usize = 1024;

/// The place of the type among the integer types.
pub fn type_number(ty: IntType) -> u8
    ensures { result ≡ type_byte ty }
{
    match ty {
        IntType::Char => 0,
        IntType::SChar => 1,
        IntType::UChar => 2,
        IntType::Short => 3,
        IntType::UShort => 4,
        IntType::Int => 5,
        IntType::UInt => 6,
        IntType::Long => 7,
        IntType::ULong => 8,
    }
}

fn kind_number(kind: Trap) -> u8
    ensures { result ≡ kind_byte kind }
{
    match kind {
        Trap::Overflow => 1,
        Trap::DivZero => 2,
        Trap::Shift => 3,
        Trap::Bounds => 4,
        Trap::Null => 5,
        Trap::PtrRange => 6,
        Trap::PtrCompare => 7,
        Trap::Depth => 8,
        Trap::NoReturn => 9,
    }
}

/// Appends the byte.
pub fn put_byte(out: &mut Vec<u8>, byte: u8) -> Result<(), AllocError>
    ensures { OnOk result (out.new.items ≡ out.old.items ++ byte ∷ []) }
{
    out.push(byte)?;
    Ok(())
}

/// Appends the bytes.
pub fn put_bytes(out: &mut Vec<u8>, bytes: &[u8]) -> Result<(), AllocError>
    ensures bytes { OnOk result (out.new.items ≡ out.old.items ++ bytes.now) }
    ensures fits { IsBytes bytes.now }
{
    out.extend_from_slice(bytes)
}

/// Appends the number in four bytes, the highest first.
#[tactic(auto, unfolding(crate::specs::Spelling::four_bytes))]
pub fn put_u32(out: &mut Vec<u8>, number: u32) -> Result<(), AllocError>
    ensures { OnOk result (out.new.items ≡ out.old.items ++ four_bytes number) }
{
    out.extend_from_slice(&number.to_be_bytes())
}

/// Appends the number in eight bytes, the highest first.
#[tactic(auto, unfolding(crate::specs::Spelling::eight_bytes))]
pub fn put_u64(out: &mut Vec<u8>, number: u64) -> Result<(), AllocError>
    ensures { OnOk result (out.new.items ≡ out.old.items ++ eight_bytes number) }
{
    out.extend_from_slice(&number.to_be_bytes())
}

#[tactic(auto, unfolding(crate::specs::Spelling::four_signed_bytes))]
fn put_i32(out: &mut Vec<u8>, number: &i32) -> Result<(), AllocError>
    ensures bytes { OnOk result (out.new.items ≡ out.old.items ++ four_signed_bytes number.now) }
    ensures fits { FitsSigned w32 number.now }
{
    out.extend_from_slice(&number.cast_unsigned().to_be_bytes())
}

/// Appends the number in sixteen bytes of two's complement, the highest first.
#[tactic(auto, unfolding(crate::specs::Spelling::sixteen_signed_bytes))]
pub fn put_i128(out: &mut Vec<u8>, number: &i128) -> Result<(), AllocError>
    ensures bytes { OnOk result (out.new.items ≡ out.old.items ++ sixteen_signed_bytes number.now) }
    ensures fits { FitsSigned w128 number.now }
{
    out.extend_from_slice(&number.cast_unsigned().to_be_bytes())
}

#[tactic(auto, using(std::proofs::Common::append_assoc))]
fn put_cell(out: &mut Vec<u8>, cell: &WireCell) -> Result<(), AllocError>
    ensures bytes { OnOk result (out.new.items ≡ out.old.items ++ cell_bytes cell.now) }
    ensures fits { OnOk result (FitsCell cell.now) }
{
    match cell {
        WireCell::Number(number) => {
            put_byte(out, 0)?;
            put_i128(out, number)?;
        }
        WireCell::Sealed(handle) => {
            put_byte(out, 1)?;
            put_u64(out, *handle)?;
        }
    }
    Ok(())
}

#[tactic(auto, using(std::proofs::Common::append_assoc))]
fn put_argument(out: &mut Vec<u8>, argument: &Arg) -> Result<(), AllocError>
    ensures bytes { OnOk result (out.new.items ≡ out.old.items ++ argument_bytes argument.now) }
    ensures fits { OnOk result (FitsArgument argument.now) }
{
    match argument {
        Arg::Number(number) => {
            put_byte(out, 0)?;
            put_i128(out, number)?;
        }
        Arg::Sealed(handle) => {
            put_byte(out, 1)?;
            put_u64(out, *handle)?;
        }
        Arg::Null => put_byte(out, 2)?,
        Arg::At {
            block,
            base,
            count,
            index,
        } => {
            put_byte(out, 3)?;
            put_byte(out, *block)?;
            put_u32(out, *base)?;
            put_u32(out, *count)?;
            put_u32(out, *index)?;
        }
    }
    Ok(())
}

#[tactic(auto, using(std::proofs::Common::append_assoc))]
fn put_typed_cell(out: &mut Vec<u8>, typed: &(IntType, WireCell)) -> Result<(), AllocError>
    ensures bytes { OnOk result (out.new.items ≡ out.old.items ++ typed_cell_bytes typed.now) }
    ensures fits { OnOk result (FitsTypedCell typed.now) }
{
    put_byte(out, type_number(typed.0))?;
    put_cell(out, &typed.1)
}

fn put_cells(out: &mut Vec<u8>, cells: &[WireCell]) -> Result<(), AllocError>
    ensures bytes { OnOk result (out.new.items ≡ out.old.items ++ flat_map cell_bytes cells.now) }
    ensures fits { OnOk result (AllByRecursion FitsCell cells.now) }
{
    for cell in cells {
        put_cell(out, cell)?;
    }
    Ok(())
}

fn put_arguments(out: &mut Vec<u8>, args: &[Arg]) -> Result<(), AllocError>
    ensures bytes { OnOk result (out.new.items ≡ out.old.items ++ flat_map argument_bytes args.now) }
    ensures fits { OnOk result (AllByRecursion FitsArgument args.now) }
{
    for argument in args {
        put_argument(out, argument)?;
    }
    Ok(())
}

fn put_typed_cells(out: &mut Vec<u8>, cells: &[(IntType, WireCell)]) -> Result<(), AllocError>
    ensures bytes { OnOk result (out.new.items ≡ out.old.items ++ flat_map typed_cell_bytes cells.now) }
    ensures fits { OnOk result (FitsBlock cells.now) }
{
    for typed in cells {
        put_typed_cell(out, typed)?;
    }
    Ok(())
}

#[tactic(auto, using(std::proofs::Common::append_assoc))]
fn put_block(out: &mut Vec<u8>, block: &Block) -> Result<(), AllocError>
    requires { IsBlock block.now }
    ensures bytes { OnOk result (out.new.items ≡ out.old.items ++ block_bytes block.now) }
    ensures fits { OnOk result (FitsBlock block.now) }
{
    let cells = block.as_slice();
    put_u32(out, cells.len() as u32)?;
    put_typed_cells(out, cells)
}

fn put_blocks(out: &mut Vec<u8>, blocks: &[Block]) -> Result<(), AllocError>
    requires { AllByRecursion IsBlock blocks.now }
    ensures bytes { OnOk result (out.new.items ≡ out.old.items ++ flat_map block_bytes blocks.now) }
    ensures fits { OnOk result (AllByRecursion FitsBlock blocks.now) }
{
    for block in blocks {
        put_block(out, block)?;
    }
    Ok(())
}

#[tactic(auto, using(std::proofs::Common::append_assoc))]
fn put_call(out: &mut Vec<u8>, body: &CallBody) -> Result<(), AllocError>
    requires { IsCall body.now }
    ensures bytes { OnOk result (out.new.items ≡ out.old.items ++ call_bytes body.now) }
    ensures fits { OnOk result (FitsCall body.now) }
{
    let args = body.args.as_slice();
    put_byte(out, args.len() as u8)?;
    put_arguments(out, args)?;
    let blocks = body.blocks.as_slice();
    put_byte(out, blocks.len() as u8)?;
    put_blocks(out, blocks)
}

#[tactic(auto, using(std::proofs::Common::append_assoc))]
fn put_result(out: &mut Vec<u8>, found: &Option<WireCell>) -> Result<(), AllocError>
    ensures bytes { OnOk result (out.new.items ≡ out.old.items ++ result_bytes found.now) }
    ensures fits { OnOk result (IfSome found.now FitsCell) }
{
    match found {
        None => put_byte(out, 0)?,
        Some(cell) => {
            put_byte(out, 1)?;
            put_cell(out, cell)?;
        }
    }
    Ok(())
}

#[tactic(auto, using(std::proofs::Common::append_assoc))]
fn put_reply(out: &mut Vec<u8>, body: &ReplyBody) -> Result<(), AllocError>
    requires { length body.now.cells < 2 ^ 32 }
    ensures bytes { OnOk result (out.new.items ≡ out.old.items ++ reply_bytes body.now) }
    ensures fits { OnOk result (FitsReply body.now) }
{
    put_result(out, &body.result)?;
    let cells = body.cells.as_slice();
    put_u32(out, cells.len() as u32)?;
    put_cells(out, cells)
}

// The tag and the turns.
#[tactic(auto, using(std::proofs::Common::append_assoc))]
fn put_start(out: &mut Vec<u8>, tag: u8, turns: u64) -> Result<(), AllocError>
    ensures { OnOk result (out.new.items ≡ out.old.items ++ tag ∷ eight_bytes turns) }
{
    put_byte(out, tag)?;
    put_u64(out, turns)
}

#[tactic(auto, using(std::proofs::Common::append_assoc))]
fn put_payload(out: &mut Vec<u8>, m: &Message) -> Result<(), AllocError>
    requires { KeepsLimits m.now }
    ensures bytes { OnOk result (out.new.items ≡ out.old.items ++ payload m.now) }
    ensures fits { OnOk result (FitsTypes m.now) }
{
    match m {
        Message::Boot(piece) => {
            put_byte(out, 0)?;
            put_bytes(out, piece.as_slice())?;
        }
        Message::Call {
            turns,
            function,
            depth,
            wants,
            body,
        } => {
            put_start(out, 1, *turns)?;
            put_u32(out, *function)?;
            put_byte(out, *depth)?;
            put_byte(out, u8::from(*wants))?;
            put_call(out, body)?;
        }
        Message::Emit { turns, bytes } => {
            put_start(out, 2, *turns)?;
            put_bytes(out, bytes.as_slice())?;
        }
        Message::Exit { turns, status } => {
            put_start(out, 3, *turns)?;
            put_i32(out, status)?;
        }
        Message::Trap { turns, kind, span } => {
            put_start(out, 4, *turns)?;
            put_byte(out, kind_number(*kind))?;
            put_u32(out, span.from)?;
            put_u32(out, span.to)?;
        }
        Message::Park { turns } => {
            put_start(out, 5, *turns)?;
        }
        Message::Reply(body) => {
            put_byte(out, 6)?;
            put_reply(out, body)?;
        }
    }
    Ok(())
}

/// Appends the frame of a message.
///
/// # Errors
///
/// Where memory runs out `out` is as before.
#[tactic(auto, using(std::proofs::Common::append_assoc), unfolding(crate::specs::Spelling::four_bytes))]
pub fn write_message(alloc: Global, m: &Message, out: &mut Vec<u8>) -> Result<(), AllocError>
    requires { KeepsLimits m.now }
    ensures appended { OnOk result (out.new.items ≡ out.old.items ++ spelling m.now) }
    ensures spelled { OnOk result (Spells m.now (spelling m.now)) }
    ensures err { OnErr result (out.new.items ≡ out.old.items) }
{
    let mut payload = Vec::with_capacity(alloc, ROOM)?;
    put_payload(&mut payload, m)?;
    out.reserve(payload.len().saturating_add(4))?;
    let before = out.len();
    out.extend_from_slice(&(payload.len() as u32).to_be_bytes())?;
    match out.extend_from_slice(&payload) {
        Ok(()) => Ok(()),
        Err(e) => {
            out.truncate(before);
            Err(e)
        }
    }
}
