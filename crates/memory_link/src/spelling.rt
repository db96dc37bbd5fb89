// The bytes of a message.
ghost use Rattle.std.specs.Prelude.{◌≡◌, IfOk};
ghost use Rattle.std.specs.List.{list_all};
ghost use Rattle.wire.specs.Limits.{Spells};
ghost use Rattle.wire.specs.Spelling.{spelling};
ghost use Rattle.memory_link.specs.Counts.{is_block, is_call, is_within};

use std::alloc::{AllocError, Global};
use wire::{Block, CallBody, Message, write_message};

/// A call has at most as many arguments, and at most as many blocks.
const MOST_IN_A_CALL: usize = 8;

/// A block has at most as many cells.
const MOST_IN_A_BLOCK: usize = 65_536;

/// As many bytes fit a frame beside their tag and the turns.
const LONGEST_OUTPUT: usize = 16_777_207;

fn is_block(block: &Block) -> bool
    ensures { result ≡ is_block block.now }
{
    let count = block.as_slice().len();
    1 <= count && count <= MOST_IN_A_BLOCK
}

fn are_blocks(blocks: &[Block]) -> bool
    ensures { result ≡ list_all is_block blocks.now }
{
    let mut rest = blocks;
    while let [block, after @ ..] = rest {
        if !is_block(block) {
            return false;
        }
        rest = after;
    }
    true
}

fn is_call(body: &CallBody) -> bool
    ensures { result ≡ is_call body.now }
{
    let blocks = body.blocks.as_slice();
    body.args.as_slice().len() <= MOST_IN_A_CALL
        && blocks.len() <= MOST_IN_A_CALL
        && are_blocks(blocks)
}

// Whether it is a message of a slave, within the limits of the format.
fn is_within(message: &Message) -> bool
    ensures { result ≡ is_within message.now }
{
    match message {
        Message::Call { body, .. } => is_call(body),
        Message::Emit { bytes, .. } => bytes.as_slice().len() <= LONGEST_OUTPUT,
        Message::Exit { .. } | Message::Trap { .. } | Message::Park { .. } => true,
        Message::Boot(_) | Message::Reply(_) => false,
    }
}

/// The frame of a message.
///
/// # Errors
///
/// Want of memory. A message past the limits of the format, of which a slave says none, counts as such.
pub(crate) fn spelled(alloc: Global, message: &Message) -> Result<Vec<u8>, AllocError>
    ensures are { IfOk result (λ bytes. bytes.items ≡ spelling message.now) }
    ensures spelled { IfOk result (λ bytes. Spells message.now (spelling message.now)) }
{
    if !is_within(message) {
        return Err(AllocError);
    }
    let mut frame = Vec::new(alloc);
    write_message(alloc, message, &mut frame)?;
    Ok(frame)
}
