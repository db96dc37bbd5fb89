// The rules for what a slave says, read again from their pages: a monitor with no part of the tool.
use crate::endings::{Ending, Stop};
use crate::entries::{Entry, Field, Gives, INT, Param, Pointee, range_of};
use crate::reading::read_message;
use crate::settings::Setting;
use crate::values::{Arg, Call, Cell, Pointer, Said, Typed};
use std::alloc::{AllocError, Global};

/// The longest payload of a frame.
const LIMIT: u32 = 16_777_216;

/// A monitor of the settings by the rules' pages, and what it has written and sent.
#[derive(Drop)]
pub struct SecondMonitor {
    pub(crate) setting: Setting,
    pub(crate) budget: u64,
    pub(crate) turns: u64,
    pub(crate) last: u64,
    pub(crate) calls: u64,
    pub(crate) state: &'static str,
    pub(crate) used: Vec<usize>,
    store: Vec<Kept>,
    pub(crate) written: Vec<u8>,
    sent: Vec<u8>,
    frames: u64,
    served: usize,
}

// A value that a handle stands for.
#[derive(Clone, Copy)]
struct Kept {
    ty: u8,
    value: i128,
}

// A cell that comes back: where it lies, and whether its number is told.
#[derive(Clone, Copy)]
struct Back {
    block: usize,
    at: usize,
    told: bool,
}

/// Appends the low bytes of a number, the highest of them first.
///
/// # Errors
///
/// Want of memory.
pub fn push_big(out: &mut Vec<u8>, number: u64, size: usize) -> Result<(), AllocError> {
    for byte in number
        .to_be_bytes()
        .iter()
        .skip(8_usize.saturating_sub(size))
    {
        out.push(*byte)?;
    }
    Ok(())
}

impl SecondMonitor {
    /// The monitor of a setting at its start.
    pub fn new(alloc: Global, setting: Setting, budget: u32) -> SecondMonitor {
        SecondMonitor {
            setting,
            budget: u64::from(budget),
            turns: 0,
            last: 0,
            calls: 0,
            state: setting.first_state(),
            used: Vec::new(alloc),
            store: Vec::new(alloc),
            written: Vec::new(alloc),
            sent: Vec::new(alloc),
            frames: 0,
            served: 0,
        }
    }

    /// What was written.
    pub fn written(&self) -> &[u8] {
        &self.written
    }

    /// The replies that were sent, each in its frame.
    pub fn sent(&self) -> &[u8] {
        &self.sent
    }

    /// How many handles were given.
    pub fn handles(&self) -> usize {
        self.store.len()
    }

    /// How many whole frames were looked at.
    pub fn frames(&self) -> u64 {
        self.frames
    }

    /// How many bytes of the stream came before the frame at which it went no further.
    pub fn served(&self) -> usize {
        self.served
    }

    /// How a stream ends, in words.
    ///
    /// # Errors
    ///
    /// Want of memory.
    pub fn serve(&mut self, alloc: Global, stream: &[u8]) -> Result<String, AllocError> {
        let mut rest = stream;
        for _ in 0..stream.len() {
            let offset = stream.len().saturating_sub(rest.len());
            self.served = offset;
            let Some((length, behind)) = rest.split_first_chunk::<4>() else {
                break;
            };
            let length = u32::from_be_bytes(*length);
            if length > LIMIT {
                return Ending::Bad(2).told(alloc, offset, self.state);
            }
            let Some((payload, behind)) = behind.split_at_checked(length as usize) else {
                break;
            };
            self.frames = self.frames.wrapping_add(1);
            match self.handle(alloc, payload) {
                Ok(()) => rest = behind,
                Err(Stop::Ends(ending)) => return ending.told(alloc, offset, self.state),
                Err(Stop::Memory) => return Err(AllocError),
            }
        }
        String::from_str(alloc, "peer ended")
    }

    // Serves a frame.
    fn handle(&mut self, alloc: Global, payload: &[u8]) -> Result<(), Stop> {
        let message = read_message(alloc, payload)?;
        let is_call = matches!(message.said, Said::Call(_));
        let is_emit = matches!(message.said, Said::Emit(_));
        if message.turns < self.last || is_emit && message.turns == self.last {
            return Err(Stop::Ends(Ending::Bad(3)));
        }
        self.within(u128::from(message.turns) + u128::from(is_call))?;
        self.last = message.turns;
        match message.said {
            Said::Call(call) => self.call(alloc, call),
            Said::Emit(bytes) => Ok(self.written.extend_from_slice(bytes)?),
            Said::Exit(status) => Err(Stop::Ends(Ending::Exit(status))),
            Said::Trap { kind, from, to } => Err(Stop::Ends(Ending::Trap(kind, from, to))),
            Said::Park => Err(Stop::Ends(Ending::Bad(9))),
        }
    }

    // Whether the slave's turns and the monitor's are within the budget.
    fn within(&self, turns: u128) -> Result<(), Stop> {
        if turns.saturating_add(u128::from(self.turns)) > u128::from(self.budget) {
            return Err(Stop::Ends(Ending::Spent));
        }
        Ok(())
    }

    /// Takes a turn of a body.
    pub(crate) fn turn(&mut self) -> Result<(), Stop> {
        let turns = u128::from(self.last) + 1;
        self.within(turns)?;
        self.turns = self.turns.wrapping_add(1);
        Ok(())
    }

    // Serves a call.
    fn call(&mut self, alloc: Global, call: Call) -> Result<(), Stop> {
        let mut call = call;
        let Some(entry) = self.setting.program().entry(call.function) else {
            return Err(Stop::Ends(Ending::Bad(4)));
        };
        let (least, most) = if entry.is_host { (0, 0) } else { (2, 200) };
        if call.depth < least || call.depth > most {
            return Err(Stop::Ends(Ending::Bad(8)));
        }
        if !has_shape(&entry, &call) {
            return Err(Stop::Ends(Ending::Bad(5)));
        }
        let back = backs(alloc, &entry, &call)?;
        let told = matches!(entry.gives, Gives::Told) || back.iter().any(|cell| cell.told);
        if told && !call.wants {
            return Err(Stop::Ends(Ending::Bad(10)));
        }
        self.know_handles(&entry, &call)?;
        self.decide(&call)?;
        self.turns = self.turns.wrapping_add(1);
        self.open(&mut call);
        let value = self.work(alloc, &mut call)?;
        self.reply(alloc, entry.gives, value, &call, &back)
    }

    // Each handle is one that was given, for a value of the right type.
    fn know_handles(&self, entry: &Entry, call: &Call) -> Result<(), Stop> {
        for (arg, param) in call.args.iter().zip(entry.params) {
            if let (Arg::Cell(cell), Param::Plain(ty) | Param::Marked(ty)) = (arg, param) {
                self.know(*ty, *cell)?;
            }
        }
        for block in &call.blocks {
            for typed in block {
                self.know(typed.ty, typed.cell)?;
            }
        }
        Ok(())
    }

    fn know(&self, ty: u8, cell: Cell) -> Result<(), Stop> {
        let Cell::Handle(handle) = cell else {
            return Ok(());
        };
        match self.store.get(handle as usize) {
            None => Err(Stop::Ends(Ending::Bad(6))),
            Some(kept) if kept.ty != ty => Err(Stop::Ends(Ending::Bad(7))),
            Some(_) => Ok(()),
        }
    }

    // Puts values in the place of handles.
    fn open(&self, call: &mut Call) {
        for arg in &mut call.args {
            if let Arg::Cell(cell) = arg {
                *arg = Arg::Cell(Cell::Number(self.value(*cell)));
            }
        }
        for block in &mut call.blocks {
            for typed in block {
                typed.cell = Cell::Number(self.value(typed.cell));
            }
        }
    }

    fn value(&self, cell: Cell) -> i128 {
        match cell {
            Cell::Number(number) => number,
            Cell::Handle(handle) => match self.store.get(handle as usize) {
                Some(kept) => kept.value,
                None => 0,
            },
        }
    }

    // Keeps what comes back as handles, and sends the reply where it is wanted.
    fn reply(
        &mut self,
        alloc: Global,
        gives: Gives,
        value: i128,
        call: &Call,
        back: &[Back],
    ) -> Result<(), Stop> {
        let mut body = Vec::new(alloc);
        body.push(6)?;
        match gives {
            Gives::Nothing => body.push(0)?,
            Gives::Sealed => self.push_back(&mut body, &[1], INT, value, false)?,
            Gives::Told => self.push_back(&mut body, &[1], INT, value, true)?,
        }
        push_big(&mut body, back.len() as u64, 4)?;
        for cell in back {
            let typed = typed_at(&call.blocks, cell.block, cell.at);
            self.push_back(&mut body, &[], typed.ty, self.value(typed.cell), cell.told)?;
        }
        if call.wants {
            push_big(&mut self.sent, body.len() as u64, 4)?;
            self.sent.extend_from_slice(&body)?;
        }
        Ok(())
    }

    // Appends bytes and a cell that comes back.
    fn push_back(
        &mut self,
        body: &mut Vec<u8>,
        before: &[u8],
        ty: u8,
        value: i128,
        told: bool,
    ) -> Result<(), AllocError> {
        body.extend_from_slice(before)?;
        if told {
            body.push(0)?;
            return body.extend_from_slice(&value.to_be_bytes());
        }
        body.push(1)?;
        push_big(body, self.store.len() as u64, 8)?;
        self.store.push(Kept { ty, value })?;
        Ok(())
    }
}

// Whether a body is one for the entry.
fn has_shape(entry: &Entry, call: &Call) -> bool {
    let args = call.args.as_slice();
    let blocks = call.blocks.as_slice();
    args.len() == entry.params.len()
        && args
            .iter()
            .zip(entry.params)
            .all(|(arg, param)| arg_fits(*arg, *param, blocks))
        && (0..blocks.len()).all(|block| is_named(block, args))
        && blocks.iter().all(|block| are_in_range(block))
}

fn arg_fits(arg: Arg, param: Param, blocks: &[Vec<Typed>]) -> bool {
    match (param, arg) {
        (Param::Plain(ty) | Param::Marked(ty), Arg::Cell(Cell::Number(number))) => {
            is_in_range(ty, number)
        }
        (Param::Marked(_), Arg::Cell(Cell::Handle(_))) => true,
        (Param::ToConst(_) | Param::ToTold(_) | Param::ToMarked(_), Arg::Null) => true,
        (Param::ToConst(to) | Param::ToTold(to) | Param::ToMarked(to), Arg::At(pointer)) => {
            pointer_fits(pointer, to, param.is_marked(), blocks)
        }
        _ => false,
    }
}

fn pointer_fits(pointer: Pointer, to: Pointee, marked: bool, blocks: &[Vec<Typed>]) -> bool {
    let Some(block) = blocks.get(pointer.block as usize) else {
        return false;
    };
    let cells = pointer.count.wrapping_mul(to.size());
    let end = pointer.base.wrapping_add(cells);
    let Some(reached) = block.get(pointer.base as usize..end as usize) else {
        return false;
    };
    pointer.count >= 1
        && pointer.index <= pointer.count
        && reached.iter().enumerate().all(|(at, typed)| cell_fits(
            *typed,
            to.field(at as u64),
            marked,
        ))
}

fn cell_fits(typed: Typed, field: Field, marked: bool) -> bool {
    let is_handle = matches!(typed.cell, Cell::Handle(_));
    typed.ty == field.ty && (!is_handle || marked || field.marked)
}

fn is_named(block: usize, args: &[Arg]) -> bool {
    args.iter().any(|arg| matches!(arg, Arg::At(pointer) if pointer.block == block as u64))
}

fn are_in_range(block: &[Typed]) -> bool {
    block.iter().all(|typed| match typed.cell {
        Cell::Number(number) => is_in_range(typed.ty, number),
        Cell::Handle(_) => true,
    })
}

fn is_in_range(ty: u8, number: i128) -> bool {
    let (least, most) = range_of(ty);
    least <= number && number <= most
}

// The cells that come back.
fn backs(alloc: Global, entry: &Entry, call: &Call) -> Result<Vec<Back>, AllocError> {
    let mut backs = Vec::new(alloc);
    for (arg, param) in call.args.iter().zip(entry.params) {
        let (Arg::At(pointer), Param::ToTold(to) | Param::ToMarked(to)) = (arg, param) else {
            continue;
        };
        for at in 0..pointer.count.wrapping_mul(to.size()) {
            backs.push(Back {
                block: pointer.block as usize,
                at: pointer.base.wrapping_add(at) as usize,
                told: !param.is_marked() && !to.field(at).marked,
            })?;
        }
    }
    Ok(backs)
}

/// The cell of this place, or 0 where there is none.
pub(crate) fn typed_at(blocks: &[Vec<Typed>], block: usize, at: usize) -> Typed {
    let none = Typed {
        ty: INT,
        cell: Cell::Number(0),
    };
    match blocks.get(block) {
        Some(cells) => cells.get(at).copied().unwrap_or(none),
        None => none,
    }
}
