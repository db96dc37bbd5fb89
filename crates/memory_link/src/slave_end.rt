// The slave's end of the link.
ghost use Rattle.std.specs.Prelude.{◌≡◌, ◌≢◌, ◌≤◌, ◌++◌, [], IfOk, OnOk, false, vec_len};
ghost use Rattle.wire.specs.Limits.{Spells};
ghost use Rattle.wire.specs.Spelling.{spelling};
ghost use Rattle.pair_meaning.specs.SlaveRun as s;
ghost use Rattle.pair_protocol.specs.Pair.{is_empty};
ghost use Rattle.slave_interp.specs.Slaves.{IsSlave};
ghost use Rattle.pair_meaning.specs.LinkTalks.{Side, begun, hears};
ghost use Rattle.memory_link.specs.Ends.{HasGiven, IsEnd};

use crate::handing::hand_over;
use crate::hearing::{feed, hear_all};
use crate::rest::Rest;
use crate::slave_half::SlaveHalf;
use crate::spelling::spelled;
use pt_base::Chooser;
use slave_interp::Slave;
use std::alloc::{AllocError, Global};
use wire::{Message, Reader};

/// The slave and its queue, what is left to give of the message that was handed over last, and what was sent and isn't read
/// yet. Where memory is wanting it isn't used again.
#[derive(Drop)]
pub(crate) struct SlaveEnd {
    half: SlaveHalf,
    rest: Rest,
    reader: Reader,
}

// The first bytes of a message, at most `max`; the others are left.
fn begin(
    alloc: Global,
    message: Message,
    rest: &mut Rest,
    max: usize,
) -> Result<Vec<u8>, AllocError>
    requires { 1 ≤ max }
    ensures all { IfOk result (λ piece. spelling message ≡ piece.items ++ rest.new) }
    ensures spelled { IfOk result (λ piece. Spells message (spelling message)) }
    ensures length { IfOk result (λ piece. vec_len piece ≤ max) }
    ensures some { IfOk result (λ piece. piece.items ≢ []) }
{
    let bytes = spelled(alloc, &message)?;
    *rest = Rest::of(bytes);
    let piece = rest.take(alloc, max)?;
    Ok(piece)
}

impl SlaveEnd {
    /// Nothing was said or sent yet.
    pub(crate) fn new(alloc: Global, slave: Slave) -> SlaveEnd
        ensures { (x : s.Slave) → IsSlave slave x → IsEnd result (begun x) }
    {
        SlaveEnd {
            half: SlaveHalf::new(alloc, slave),
            rest: Rest::none(alloc),
            reader: Reader::new(alloc),
        }
    }

    /// The slave hears these bytes.
    pub(crate) fn hear(&mut self, alloc: Global, bytes: &[u8]) -> Result<(), AllocError>
        ensures { OnOk result ((s : Side) → IsEnd self.old s → IsEnd self.new (hears bytes.now s)) }
    {
        feed(&mut self.reader, bytes)?;
        hear_all(alloc, &mut self.half, &mut self.reader)?;
        Ok(())
    }

    // The first bytes of the message that is handed over next; none where there is none.
    fn give_next<C: Chooser>(
        &mut self,
        alloc: Global,
        window: u32,
        chooser: &mut C,
        max: usize,
    ) -> Result<Vec<u8>, AllocError>
        requires none { self.old.rest ≡ [] }
        requires room { 1 ≤ max }
        ensures given { IfOk result (λ piece. HasGiven window self.old piece.items self.new (C.answers chooser.old) (C.answers chooser.new)) }
        ensures length { IfOk result (λ piece. vec_len piece ≤ max) }
    {
        let Some(message) = hand_over(alloc, &mut self.half, window, chooser)? else {
            return Ok(Vec::new(alloc));
        };
        let piece = begin(alloc, message, &mut self.rest, max)?;
        Ok(piece)
    }

    /// Gives at most `max` bytes: more of the message that was begun, or the first of the next one. None where there is no
    /// next one.
    pub(crate) fn give<C: Chooser>(
        &mut self,
        alloc: Global,
        window: u32,
        chooser: &mut C,
        max: usize,
    ) -> Result<Vec<u8>, AllocError>
        requires { 1 ≤ max }
        ensures given { IfOk result (λ piece. HasGiven window self.old piece.items self.new (C.answers chooser.old) (C.answers chooser.new)) }
        ensures length { IfOk result (λ piece. vec_len piece ≤ max) }
    {
        if self.rest.is_none() {
            let piece = self.give_next(alloc, window, chooser, max)?;
            return Ok(piece);
        }
        let piece = self.rest.take(alloc, max)?;
        Ok(piece)
    }
}
