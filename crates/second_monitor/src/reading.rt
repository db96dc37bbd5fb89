// What a slave says, read from the payload of a frame by the table of messages.
use crate::values::{Arg, Call, Cell, Message, Pointer, Said, Typed};
use std::alloc::{AllocFailed, Global};

/// Why a payload gives no message.
pub enum Unread {
    /// It spells none that a slave says.
    NoMessage,
    /// Want of memory.
    Memory,
}

impl<T: Drop> From<AllocFailed<T>> for Unread {
    fn from(_: AllocFailed<T>) -> Self {
        Unread::Memory
    }
}

// What is left of a payload.
#[derive(Drop)]
struct Fields<'a> {
    rest: &'a [u8],
}

impl<'a> Fields<'a> {
    fn bytes(&mut self, count: usize) -> Result<&'a [u8], Unread> {
        match self.rest.split_at_checked(count) {
            Some((front, rest)) => {
                self.rest = rest;
                Ok(front)
            }
            None => Err(Unread::NoMessage),
        }
    }

    // A number of so many bytes, of eight at most.
    fn number(&mut self, size: usize) -> Result<u64, Unread> {
        let mut number: u64 = 0;
        for byte in self.bytes(size)? {
            number = number.wrapping_mul(256).wrapping_add(u64::from(*byte));
        }
        Ok(number)
    }

    // A signed number of sixteen bytes.
    fn signed(&mut self) -> Result<i128, Unread> {
        let mut number: u128 = 0;
        for byte in self.bytes(16)? {
            number = number.wrapping_mul(256).wrapping_add(u128::from(*byte));
        }
        Ok(number.cast_signed())
    }

    // A byte of a field that has this greatest one.
    fn byte(&mut self, most: u8) -> Result<u8, Unread> {
        match self.bytes(1)? {
            [byte] if *byte <= most => Ok(*byte),
            _ => Err(Unread::NoMessage),
        }
    }

    fn cell(&mut self) -> Result<Cell, Unread> {
        match self.byte(1)? {
            0 => Ok(Cell::Number(self.signed()?)),
            _ => Ok(Cell::Handle(self.number(8)?)),
        }
    }

    fn argument(&mut self) -> Result<Arg, Unread> {
        match self.byte(3)? {
            0 => Ok(Arg::Cell(Cell::Number(self.signed()?))),
            1 => Ok(Arg::Cell(Cell::Handle(self.number(8)?))),
            2 => Ok(Arg::Null),
            _ => Ok(Arg::At(Pointer {
                block: self.number(1)?,
                base: self.number(4)?,
                count: self.number(4)?,
                index: self.number(4)?,
            })),
        }
    }

    fn block(&mut self, alloc: Global) -> Result<Vec<Typed>, Unread> {
        let count = self.number(4)?;
        if count == 0 || count > 65_536 {
            return Err(Unread::NoMessage);
        }
        let mut cells = Vec::new(alloc);
        for _ in 0..count {
            let ty = self.byte(8)?;
            let cell = self.cell()?;
            cells.push(Typed { ty, cell })?;
        }
        Ok(cells)
    }

    fn call(&mut self, alloc: Global) -> Result<Call, Unread> {
        let function = self.number(4)?;
        let depth = self.number(1)?;
        let wants = self.byte(1)? == 1;
        let mut args = Vec::new(alloc);
        for _ in 0..self.byte(8)? {
            args.push(self.argument()?)?;
        }
        let mut blocks = Vec::new(alloc);
        for _ in 0..self.byte(8)? {
            blocks.push(self.block(alloc)?)?;
        }
        Ok(Call {
            function,
            depth,
            wants,
            args,
            blocks,
        })
    }

    fn said(&mut self, alloc: Global, tag: u8) -> Result<Said<'a>, Unread> {
        match tag {
            1 => Ok(Said::Call(self.call(alloc)?)),
            2 => Ok(Said::Emit(self.bytes(self.rest.len())?)),
            3 => {
                let status = self.number(4)?;
                Ok(Said::Exit(status))
            }
            4 => {
                let kind = self.byte(9)?;
                let from = self.number(4)?;
                let to = self.number(4)?;
                if kind == 0 {
                    return Err(Unread::NoMessage);
                }
                Ok(Said::Trap { kind, from, to })
            }
            5 => Ok(Said::Park),
            _ => Err(Unread::NoMessage),
        }
    }
}

/// The message of this payload.
///
/// # Errors
///
/// A payload that spells none that a slave says, and want of memory.
pub fn read_message(alloc: Global, payload: &[u8]) -> Result<Message<'_>, Unread> {
    let mut fields = Fields { rest: payload };
    let tag = fields.byte(5)?;
    let turns = fields.number(8)?;
    let said = fields.said(alloc, tag)?;
    if fields.rest.is_empty() {
        Ok(Message { turns, said })
    } else {
        Err(Unread::NoMessage)
    }
}
