// Streams made from seeds.
use crate::streams::numbers::Numbers;
use crate::{INT, Program, push_big, range_of};
use std::alloc::{AllocError, Global};

/// The longest payload of a frame.
pub const LIMIT: u32 = 16_777_216;

/// A stream, the turns of the run to which it is given, and the size of the pieces in which it comes.
#[derive(Drop)]
pub struct Made {
    pub budget: u32,
    pub bytes: Vec<u8>,
    pub piece: usize,
}

// What a stream is made with: how many turns its last message had, and how many handles the monitor has given, where
// it refused none of the calls.
#[derive(Drop)]
pub struct Maker {
    pub numbers: Numbers,
    pub turns: u64,
    pub given: u64,
}

impl Made {
    /// The stream of this seed.
    ///
    /// # Errors
    ///
    /// Want of memory.
    pub fn new(alloc: Global, program: Program, seed: u64) -> Result<Made, AllocError> {
        let mut maker = Maker {
            numbers: Numbers::new(seed),
            turns: 0,
            given: 0,
        };
        let budget = if maker.numbers.below(8) == 0 {
            maker.numbers.below(40) as u32
        } else {
            1000
        };
        let mut bytes = Vec::new(alloc);
        for _ in 0..=maker.numbers.below(24) {
            maker.push_frame(alloc, program, &mut bytes)?;
        }
        if maker.numbers.once_in(4) {
            let length = maker.numbers.below((bytes.len() as u64).saturating_add(1));
            bytes.truncate(length as usize);
        }
        let piece = match maker.numbers.below(8) {
            0 => 1,
            1 => 2,
            2 => 7,
            3 => 40,
            _ => 65_536,
        };
        Ok(Made {
            budget,
            bytes,
            piece,
        })
    }
}

impl Maker {
    // Appends a frame, or a length alone.
    fn push_frame(
        &mut self,
        alloc: Global,
        program: Program,
        bytes: &mut Vec<u8>,
    ) -> Result<(), AllocError> {
        let kind = self.numbers.below(32);
        if kind == 30 {
            return self.push_length(bytes);
        }
        let mut payload = match kind {
            0..=19 => self.call(alloc, program)?,
            28 => self.end(alloc)?,
            29 => self.parents(alloc)?,
            _ => self.emit(alloc)?,
        };
        if !payload.is_empty() && self.numbers.once_in(48) {
            self.spoil(&mut payload)?;
        }
        let length = payload.len() as u64;
        let length = if !self.numbers.once_in(96) {
            length
        } else if self.numbers.once_in(2) {
            length.wrapping_sub(1)
        } else {
            length.wrapping_add(1)
        };
        push_big(bytes, length, 4)?;
        bytes.extend_from_slice(&payload)
    }

    // Appends a length about the limit and a few bytes.
    fn push_length(&mut self, bytes: &mut Vec<u8>) -> Result<(), AllocError> {
        let limit = u64::from(LIMIT);
        let more = self.numbers.below(1000);
        let length = match self.numbers.below(4) {
            0 => limit,
            1 => limit + 1,
            2 => 0xffff_ffff,
            _ => limit.saturating_add(more),
        };
        push_big(bytes, length, 4)?;
        let count = self.numbers.below(8);
        self.push_noise(bytes, count)
    }

    fn push_noise(&mut self, out: &mut Vec<u8>, count: u64) -> Result<(), AllocError> {
        for _ in 0..count {
            out.push(self.numbers.below(256) as u8)?;
        }
        Ok(())
    }

    // Changes a payload that has bytes: one of them, or their number.
    fn spoil(&mut self, payload: &mut Vec<u8>) -> Result<(), AllocError> {
        let length = payload.len() as u64;
        match self.numbers.below(5) {
            0 => {
                let byte = self.numbers.below(256) as u8;
                let at = self.numbers.below(length);
                set(payload, at, byte);
            }
            1 => {
                let cut = self.numbers.below(4).saturating_add(1);
                payload.truncate(length.saturating_sub(cut) as usize);
            }
            2 => {
                let count = self.numbers.below(3).saturating_add(1);
                self.push_noise(payload, count)?;
            }
            3 => set(payload, 0, self.numbers.below(9) as u8),
            _ => {
                let at = self.numbers.below(length);
                let byte = payload.get(at as usize).copied().unwrap_or(0);
                set(payload, at, byte.wrapping_add(1));
            }
        }
        Ok(())
    }

    // The turns of the next message, so many more than those of the last one, or others.
    pub(crate) fn spent(&mut self, step: u64) -> u64 {
        match self.numbers.below(128) {
            0 => self.turns.wrapping_sub(1),
            1 => u64::MAX,
            2 => self.turns.wrapping_add(1000),
            _ => {
                self.turns = self.turns.wrapping_add(step);
                self.turns
            }
        }
    }

    // An Emit.
    fn emit(&mut self, alloc: Global) -> Result<Vec<u8>, AllocError> {
        let step = if self.numbers.once_in(32) {
            0
        } else {
            self.numbers.below(2).saturating_add(1)
        };
        let turns = self.spent(step);
        let mut out = headed(alloc, 2, turns)?;
        let count = if self.numbers.once_in(16) {
            300
        } else {
            self.numbers.below(6)
        };
        self.push_noise(&mut out, count)?;
        Ok(out)
    }

    // An Exit, a Trap or a Park.
    fn end(&mut self, alloc: Global) -> Result<Vec<u8>, AllocError> {
        let kind = self.numbers.below(3);
        let step = self.numbers.below(3);
        let turns = self.spent(step);
        match kind {
            0 => {
                let mut out = headed(alloc, 3, turns)?;
                let status = self.number(INT);
                out.extend_from_slice(status.to_be_bytes().split_at(12).1)?;
                Ok(out)
            }
            1 => {
                let mut out = headed(alloc, 4, turns)?;
                out.push(self.numbers.below(12) as u8)?;
                push_big(&mut out, self.numbers.below(500), 4)?;
                push_big(&mut out, self.numbers.below(500), 4)?;
                Ok(out)
            }
            _ => {
                let turns = if self.numbers.once_in(2) {
                    turns
                } else {
                    self.numbers.below(2).saturating_add(1000)
                };
                headed(alloc, 5, turns)
            }
        }
    }

    // What the parent alone says, nothing, or noise.
    fn parents(&mut self, alloc: Global) -> Result<Vec<u8>, AllocError> {
        let mut out = Vec::new(alloc);
        match self.numbers.below(4) {
            0 => {
                out.push(0)?;
                let count = self.numbers.below(6);
                self.push_noise(&mut out, count)?;
            }
            1 => {
                out.push(6)?;
                if self.numbers.once_in(2) {
                    out.extend_from_slice(&[1, 1])?;
                    push_big(&mut out, self.handle(), 8)?;
                } else {
                    out.push(0)?;
                }
                push_big(&mut out, 0, 4)?;
            }
            2 => {}
            _ => {
                let count = self.numbers.below(40).saturating_add(1);
                self.push_noise(&mut out, count)?;
            }
        }
        Ok(out)
    }

    /// A number, mostly a small one, else at a bound of the type or beyond.
    pub(crate) fn number(&mut self, ty: u8) -> i128 {
        let (least, most) = range_of(ty);
        match self.numbers.below(128) {
            120 => least,
            121 => most,
            122 => -1,
            123 => 97,
            124 => least.wrapping_sub(1),
            125 => most.wrapping_add(1),
            126 => i128::MAX,
            127 => i128::MIN,
            kind => match kind % 8 {
                0 => 7,
                1 => 5,
                2 => 0,
                3 => 1,
                4 => 2,
                5 => 3,
                6 => 4,
                _ => 8,
            },
        }
    }

    /// The number of a handle, mostly of one that was given.
    pub(crate) fn handle(&mut self) -> u64 {
        match self.numbers.below(48) {
            45 => self.given,
            46 => self.given.wrapping_add(1),
            47 => u64::MAX,
            _ => self.numbers.below(self.given.max(1)),
        }
    }
}

// Sets a byte.
fn set(payload: &mut Vec<u8>, at: u64, byte: u8) {
    if let Some(old) = payload.get_mut(at as usize) {
        *old = byte;
    }
}

/// A payload of this tag and these turns.
///
/// # Errors
///
/// Want of memory.
pub fn headed(alloc: Global, tag: u8, turns: u64) -> Result<Vec<u8>, AllocError> {
    let mut out = Vec::new(alloc);
    out.push(tag)?;
    push_big(&mut out, turns, 8)?;
    Ok(out)
}
