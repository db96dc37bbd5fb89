// Reading the lists of a payload.
ghost use Rattle.std.specs.Prelude.{◌≡◌};
ghost use Rattle.wire.specs.Reading.{Gives, many, few, argument_at, cell_at, typed_cell_at, block_at, call_at, reply_at};

use super::fields::{argument, byte, call_result, cell, number_u32, typed_cell};
use crate::cell::{Arg, WireCell};
use crate::fault::ReadError;
use crate::limits::{MOST_IN_A_BLOCK, MOST_IN_A_CALL};
use crate::lists::{Args, Block, Blocks, Cells};
use crate::message::{CallBody, ReplyBody};
use pt_base::IntType;
use std::alloc::Global;

// A cell of a block has at least as many bytes.
const SHORTEST_TYPED_CELL: usize = 10;

fn cells_of(alloc: Global, count: u32, bytes: &[u8]) -> Result<(Vec<WireCell>, &[u8]), ReadError>
    ensures { Gives (λ x. (x.0.items, x.1.now)) result (many cell_at count bytes.now) }
{
    let mut items = Vec::new(alloc);
    let mut rest = bytes;
    for _ in 0..count {
        let (item, after) = cell(rest)?;
        items.push(item)?;
        rest = after;
    }
    Ok((items, rest))
}

fn typed_cells_of(
    alloc: Global,
    count: u32,
    bytes: &[u8],
) -> Result<(Vec<(IntType, WireCell)>, &[u8]), ReadError>
    ensures { Gives (λ x. (x.0.items, x.1.now)) result (many typed_cell_at count bytes.now) }
{
    let room = (count as usize).min(bytes.len() / SHORTEST_TYPED_CELL);
    let mut items = Vec::with_capacity(alloc, room)?;
    let mut rest = bytes;
    for _ in 0..count {
        let (item, after) = typed_cell(rest)?;
        items.push(item)?;
        rest = after;
    }
    Ok((items, rest))
}

fn arguments_of(alloc: Global, count: u8, bytes: &[u8]) -> Result<(Vec<Arg>, &[u8]), ReadError>
    ensures { Gives (λ x. (x.0.items, x.1.now)) result (many argument_at count bytes.now) }
{
    let mut items = Vec::new(alloc);
    let mut rest = bytes;
    for _ in 0..count {
        let (item, after) = argument(rest)?;
        items.push(item)?;
        rest = after;
    }
    Ok((items, rest))
}

fn blocks_of(alloc: Global, count: u8, bytes: &[u8]) -> Result<(Vec<Block>, &[u8]), ReadError>
    ensures { Gives (λ x. (x.0.items, x.1.now)) result (many block_at count bytes.now) }
{
    let mut items = Vec::new(alloc);
    let mut rest = bytes;
    for _ in 0..count {
        let (item, after) = block(alloc, rest)?;
        items.push(item)?;
        rest = after;
    }
    Ok((items, rest))
}

#[tactic(auto, unfolding(crate::specs::Reading::block_at))]
fn block(alloc: Global, bytes: &[u8]) -> Result<(Block, &[u8]), ReadError>
    ensures { Gives (λ x. (x.0, x.1.now)) result (block_at bytes.now) }
{
    let (count, rest) = number_u32(bytes)?;
    if count < 1 || MOST_IN_A_BLOCK < count {
        return Err(ReadError::Bad);
    }
    let (items, rest) = typed_cells_of(alloc, count, rest)?;
    Ok((Block::new(items), rest))
}

#[tactic(auto, unfolding(crate::specs::Reading::few))]
fn arguments(alloc: Global, bytes: &[u8]) -> Result<(Args, &[u8]), ReadError>
    ensures { Gives (λ x. (x.0, x.1.now)) result (few argument_at bytes.now) }
{
    let (count, rest) = byte(bytes)?;
    if MOST_IN_A_CALL < count {
        return Err(ReadError::Bad);
    }
    let (items, rest) = arguments_of(alloc, count, rest)?;
    Ok((Args::new(items), rest))
}

#[tactic(auto, unfolding(crate::specs::Reading::few))]
fn blocks(alloc: Global, bytes: &[u8]) -> Result<(Blocks, &[u8]), ReadError>
    ensures { Gives (λ x. (x.0, x.1.now)) result (few block_at bytes.now) }
{
    let (count, rest) = byte(bytes)?;
    if MOST_IN_A_CALL < count {
        return Err(ReadError::Bad);
    }
    let (items, rest) = blocks_of(alloc, count, rest)?;
    Ok((Blocks::new(items), rest))
}

#[tactic(auto, unfolding(crate::specs::Reading::call_at))]
pub(crate) fn call_body(alloc: Global, bytes: &[u8]) -> Result<(CallBody, &[u8]), ReadError>
    ensures { Gives (λ x. (x.0, x.1.now)) result (call_at bytes.now) }
{
    let (args, rest) = arguments(alloc, bytes)?;
    let (blocks, rest) = blocks(alloc, rest)?;
    Ok((CallBody { args, blocks }, rest))
}

#[tactic(auto, unfolding(crate::specs::Reading::reply_at))]
pub(crate) fn reply_body(alloc: Global, bytes: &[u8]) -> Result<(ReplyBody, &[u8]), ReadError>
    ensures { Gives (λ x. (x.0, x.1.now)) result (reply_at bytes.now) }
{
    let (result, rest) = call_result(bytes)?;
    let (count, rest) = number_u32(rest)?;
    let (cells, rest) = cells_of(alloc, count, rest)?;
    let body = ReplyBody {
        result,
        cells: Cells::new(cells),
    };
    Ok((body, rest))
}
