// A reader of messages from bytes that come in any pieces.
ghost use Rattle.std.specs.Prelude.{◌≡◌, ◌++◌, ◌+◌, ◌<◌, ◌≤◌, ◌^◌, length, drop, OnOk, OnErr, IsErr};
ghost use Rattle.wire.specs.Steps.{Answers};
ghost use Rattle.wire.specs.View.{fresh};

use crate::fault::{FrameFault, WireError};
use crate::message::Message;
use crate::reading::front::{Front, beginning};
use std::alloc::{AllocError, Global};
use std::marker::Model;

/// As many bytes may be fed in all.
const MOST_FED: u64 = 0x7fff_ffff_ffff_ffff;

/// Read bytes are let go where there are as many, and as many as unread ones.
const MOST_KEPT: usize = 4096;

/// Gives the messages of a stream, whose bytes are fed in any pieces.
#[derive(Drop)]
pub struct Reader {
    bytes: Vec<u8>,
    // How many of the bytes are read.
    read: usize,
    // The place of the first unread byte among all bytes fed.
    offset: u64,
    fault: Option<FrameFault>,
}

impl Model for Reader {
    ghost use Rattle.wire.specs.View.{ReaderView};
    ghost use Rattle.std.specs.Prelude.{drop, length, ◌≤◌, ◌<◌, ◌+◌, ◌^◌};

    ghost Value = { ReaderView };

    ghost view = { λ r. record { unread = drop r.read r.bytes.items; offset = r.offset; fault = r.fault } };

    ghost invariant = { λ r. (r.read ≤ length r.bytes.items) × (r.offset + length (drop r.read r.bytes.items) < 2 ^ 63) };
}

impl Reader {
    /// A reader to which nothing was fed.
    pub fn new(alloc: Global) -> Reader
        ensures { result ≡ fresh }
    {
        Reader {
            bytes: Vec::new(alloc),
            read: 0,
            offset: 0,
            fault: None,
        }
    }

    /// Takes the next piece of the stream.
    ///
    /// # Errors
    ///
    /// Where memory runs out, and where 2^63 bytes or more would have been fed in all, the reader is as
    /// before.
    pub fn feed(&mut self, piece: &[u8]) -> Result<(), AllocError>
        ensures ok { OnOk result (self.new ≡ record self.old { unread = self.old.unread ++ piece.now }) }
        ensures most { OnOk result (self.old.offset + length (self.old.unread ++ piece.now) < 2 ^ 63) }
        ensures err { OnErr result (self.new ≡ self.old) }
    {
        let unread = (self.bytes.len() - self.read) as u64;
        if MOST_FED - self.offset - unread < piece.len() as u64 {
            return Err(AllocError);
        }
        self.bytes.extend_from_slice(piece)
    }

    /// The next message and the place of its frame, or nothing where less than a whole frame is unread.
    /// Only bytes of whole frames are looked at, and each once, but for the four of a length.
    ///
    /// # Errors
    ///
    /// `BadFrame` where a complete frame is no message's, `TooLong` where a length is over the limit: each
    /// call from then on answers the same. After `Memory` the reader is as before.
    pub fn next(&mut self, alloc: Global) -> Result<Option<(Message, u64)>, WireError>
        ensures { Answers self.old result self.new }
    {
        match self.fault {
            Some(FrameFault::BadFrame) => return Err(WireError::BadFrame(self.offset)),
            Some(FrameFault::TooLong) => return Err(WireError::TooLong(self.offset)),
            None => {}
        }
        match beginning(alloc, self.unread())? {
            Front::Unfinished => Ok(None),
            Front::TooLong => {
                self.keep(FrameFault::TooLong);
                Err(WireError::TooLong(self.offset))
            }
            Front::BadFrame => {
                self.keep(FrameFault::BadFrame);
                Err(WireError::BadFrame(self.offset))
            }
            Front::Framed(message, size) => {
                let place = self.offset;
                self.advance(alloc, size);
                Ok(Some((message, place)))
            }
        }
    }

    fn unread(&self) -> &[u8]
        ensures { result.now ≡ self.now.unread }
    {
        &self.bytes[self.read..]
    }

    // From now on the reader answers the fault.
    fn keep(&mut self, fault: FrameFault)
        ensures { self.new ≡ record self.old { fault = Some fault } }
    {
        self.fault = Some(fault);
    }

    // Takes bytes off the front.
    fn advance(&mut self, alloc: Global, size: usize)
        requires { size ≤ length self.old.unread }
        ensures { self.new ≡ record self.old { unread = drop size self.old.unread; offset = self.old.offset + size } }
    {
        self.read += size;
        self.offset += size as u64;
        if MOST_KEPT <= self.read && self.bytes.len() - self.read <= self.read {
            self.let_go(alloc);
        }
    }

    // Keeps the unread bytes alone, unless memory runs out.
    fn let_go(&mut self, alloc: Global)
        ensures { self.new ≡ self.old }
    {
        if let Ok(unread) = Vec::from_slice(alloc, &self.bytes[self.read..]) {
            self.bytes = unread;
            self.read = 0;
        }
    }
}
