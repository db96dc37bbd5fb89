// What the hosts and the functions' bodies do.
use crate::endings::{Ending, Stop};
use crate::entries::Program;
use crate::rules::{SecondMonitor, typed_at};
use crate::values::{Arg, Call, Cell};
use std::alloc::Global;

// Numbers of traps.
const OVERFLOW: u8 = 1;

const DIV_ZERO: u8 = 2;

const BOUNDS: u8 = 4;

const NULL: u8 = 5;

const DEPTH: u8 = 8;

// Where a pointer points: its block and its cell.
#[derive(Clone, Copy)]
struct Place {
    block: usize,
    at: usize,
}

impl SecondMonitor {
    /// What a host or a body gives and does. Where it has no result it gives 0.
    pub(crate) fn work(&mut self, alloc: Global, call: &mut Call) -> Result<i128, Stop> {
        let secret = self.setting.secret();
        let first = number_at(call, 0);
        let second = number_at(call, 1);
        match (self.setting.program(), call.function) {
            (Program::Signer, 0) if first == 8 => Ok(5),
            (Program::Signer | Program::Login, 0) => Ok(if first == 7 { secret } else { 0 }),
            (Program::Signer, _) => Ok(if first == secret && second == 5 {
                99
            } else {
                -1
            }),
            (Program::Login, _) => self.verify(call),
            (Program::Ledger, 0) => Ok(if first == 7 { secret } else { 5 }),
            (Program::Ledger, 1) => self.note(alloc, first, second),
            (Program::Ledger, 3) => self.open_account(call),
            (Program::Ledger, 4) => self.keep(call, second),
            (Program::Ledger, 5) => self.same(call, second),
            (Program::Ledger, _) => self.tell(alloc, first),
        }
    }

    fn verify(&mut self, call: &Call) -> Result<i128, Stop> {
        let times = u64::try_from(number_at(call, 2)).unwrap_or(0);
        let mut hash = 0;
        self.turn()?;
        for moved in 0..times {
            let place = self.place(call, 1, [1, moved], ("word[i]", 7))?;
            if call.depth == 200 {
                return Err(self.trap(DEPTH, "mix(h, word[i])", 15));
            }
            self.turn()?;
            hash = mixed(hash, number_of(call, place));
            self.turn()?;
        }
        Ok(i128::from(hash == number_at(call, 0)))
    }

    fn note(&mut self, alloc: Global, number: i128, key: i128) -> Result<i128, Stop> {
        let line = format!(in alloc; "note {number} {key}\n")?;
        self.written.extend_from_slice(line.as_bytes())?;
        Ok(0)
    }

    fn open_account(&mut self, call: &mut Call) -> Result<i128, Stop> {
        let place = self.place(call, 0, [2, 0], ("p->id", 5))?;
        let id = number_of(call, place);
        if id == 0x7fff_ffff {
            return Err(self.trap(OVERFLOW, "p->id += 1", 10));
        }
        let next = id.wrapping_add(1);
        let key = Place {
            block: place.block,
            at: place.at.wrapping_add(1),
        };
        set_number(call, place, next);
        set_number(call, key, next);
        Ok(0)
    }

    fn keep(&mut self, call: &mut Call, number: i128) -> Result<i128, Stop> {
        let place = self.place(call, 0, [1, 0], ("*p = n", 2))?;
        set_number(call, place, number);
        Ok(0)
    }

    fn same(&mut self, call: &Call, key: i128) -> Result<i128, Stop> {
        let place = self.place(call, 0, [2, 0], ("p->key == k", 6))?;
        let kept = typed_at(&call.blocks, place.block, place.at.wrapping_add(1));
        Ok(i128::from(number_in(kept.cell) == key))
    }

    fn tell(&mut self, alloc: Global, number: i128) -> Result<i128, Stop> {
        self.turn()?;
        self.note(alloc, number, 1)?;
        match 100_i128.checked_div(number) {
            Some(part) => Ok(part),
            None => Err(self.trap(DIV_ZERO, "100 / n", 7)),
        }
    }

    // Where an argument points, in elements of the first number's cells and moved on by the second number.
    fn place(
        &self,
        call: &Call,
        arg: usize,
        numbers: [u64; 2],
        piece: (&str, usize),
    ) -> Result<Place, Stop> {
        let [size, moved] = numbers;
        let Some(Arg::At(pointer)) = call.args.get(arg) else {
            return Err(self.trap(NULL, piece.0, piece.1));
        };
        let index = pointer.index.wrapping_add(moved);
        if index == pointer.count {
            return Err(self.trap(BOUNDS, piece.0, piece.1));
        }
        Ok(Place {
            block: pointer.block as usize,
            at: pointer.base.wrapping_add(index.wrapping_mul(size)) as usize,
        })
    }

    // A trap where the text of the program has this piece first, with this length.
    fn trap(&self, kind: u8, piece: &str, length: usize) -> Stop {
        let from = self.setting.text().find(piece).unwrap_or(0) as u64;
        Stop::Ends(Ending::Trap(kind, from, from.wrapping_add(length as u64)))
    }
}

fn mixed(hash: i128, byte: i128) -> i128 {
    hash.wrapping_mul(31).wrapping_add(byte) % 65536
}

fn number_in(cell: Cell) -> i128 {
    match cell {
        Cell::Number(number) => number,
        Cell::Handle(_) => 0,
    }
}

fn number_at(call: &Call, arg: usize) -> i128 {
    match call.args.get(arg) {
        Some(Arg::Cell(cell)) => number_in(*cell),
        _ => 0,
    }
}

fn number_of(call: &Call, place: Place) -> i128 {
    number_in(typed_at(&call.blocks, place.block, place.at).cell)
}

fn set_number(call: &mut Call, place: Place, number: i128) {
    if let Some(block) = call.blocks.get_mut(place.block)
        && let Some(typed) = block.get_mut(place.at)
    {
        typed.cell = Cell::Number(number);
    }
}
