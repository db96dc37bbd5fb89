// Whether a caller has to wait for the reply.
ghost use Rattle.std.specs.Prelude.{◌≡◌, IsTrue, IfOk};
ghost use Rattle.marshalling.specs.Leaves.{has_structs};
ghost use Rattle.marshalling.specs.Ranges.{crossing_among};
ghost use Rattle.marshalling.specs.Replies.{block_types, has_plain, is_plain as is_number, places_from, places_of, reply_has_plain, result_places, types_of};

use crate::crossing::Crossing;
use crate::range::Range;
use crate::ranges::{crossing_at, ranges_of};
use pt_base::IntType;
use pt_tree::Signature;
use std::alloc::{AllocError, Global};
use typed_tree::StructInfo;
use wire::{Block, CallBody, WireCell};

/// Whether the reply to a call with this body holds a number: its result is one, or a cell comes
/// back as one. Any other reply is known to the caller beforehand.
pub fn reply_holds_number(
    alloc: Global,
    structs: &[StructInfo],
    sig: &Signature,
    body: &CallBody,
) -> Result<bool, AllocError>
    requires { IsTrue (has_structs structs.now sig.now.params) }
    ensures { IfOk result (λ holds. holds ≡ reply_has_plain structs.now sig.now body.now) }
{
    if result_is_number(sig) {
        return Ok(true);
    }
    let ranges = ranges_of(alloc, structs, sig.params.as_slice(), body.args.as_slice())?;
    Ok(blocks_hold_number(ranges.as_slice(), body.blocks.as_slice()))
}

fn result_is_number(sig: &Signature) -> bool
    ensures { result ≡ has_plain (result_places sig.now sig.now.result) }
{
    sig.result.is_some() && sig.declassify
}

// Whether a cell of these blocks comes back as a number.
fn blocks_hold_number(ranges: &[Range], blocks: &[Block]) -> bool
    ensures { result ≡ has_plain (places_of (crossing_among ranges.now) 0 (types_of blocks.now)) }
{
    for (k, block) in blocks.iter().enumerate() {
        if holds_number(ranges, k, block.as_slice()) {
            return true;
        }
    }
    false
}

// Whether a cell of the block k does.
fn holds_number(ranges: &[Range], k: usize, block: &[(IntType, WireCell)]) -> bool
    ensures { result ≡ has_plain (places_from (crossing_among ranges.now) k 0 (block_types block.now)) }
{
    for i in 0..block.len() {
        if is_plain(crossing_at(ranges, k, i)) {
            return true;
        }
    }
    false
}

fn is_plain(crossing: Crossing) -> bool
    ensures { result ≡ is_number crossing }
{
    matches!(crossing, Crossing::Plain)
}
