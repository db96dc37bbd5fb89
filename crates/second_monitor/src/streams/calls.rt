// Calls of a stream: mostly such as the monitor serves.
use crate::streams::making::{Maker, headed};
use crate::{Entry, Gives, INT, Param, Pointee, Pointer, Program, push_big};
use std::alloc::{AllocError, Global};

// The arguments and the blocks of a call, each spelled.
#[derive(Drop)]
struct Parts {
    args: Vec<Vec<u8>>,
    blocks: Vec<Vec<u8>>,
}

impl Maker {
    /// The payload of a Call.
    ///
    /// # Errors
    ///
    /// Want of memory.
    pub(crate) fn call(&mut self, alloc: Global, program: Program) -> Result<Vec<u8>, AllocError> {
        let program = self.program(program);
        let functions = program.entries();
        let at = self.numbers.below(functions.len() as u64);
        let function = functions.get(at as usize).copied().unwrap_or(0);
        let Some(entry) = program.entry(function) else {
            return Ok(Vec::new(alloc));
        };
        let mut out = self.call_head(alloc, function, &entry)?;
        let parts = self.parts(alloc, &entry)?;
        push_list(&mut out, &parts.args)?;
        push_list(&mut out, &parts.blocks)?;
        Ok(out)
    }

    // The program, rarely another one.
    fn program(&mut self, program: Program) -> Program {
        if !self.numbers.once_in(64) {
            return program;
        }
        match self.numbers.below(3) {
            0 => Program::Signer,
            1 => Program::Login,
            _ => Program::Ledger,
        }
    }

    // The fields before the arguments.
    fn call_head(
        &mut self,
        alloc: Global,
        function: u64,
        entry: &Entry,
    ) -> Result<Vec<u8>, AllocError> {
        let step = self.numbers.below(3);
        let turns = self.spent(step);
        let mut out = headed(alloc, 1, turns)?;
        let number = if self.numbers.once_in(48) {
            self.numbers.below(9)
        } else {
            function
        };
        push_big(&mut out, number, 4)?;
        out.push(self.depth(entry.is_host))?;
        let wants = if tells(entry) {
            !self.numbers.once_in(48)
        } else {
            !self.numbers.once_in(2)
        };
        out.push(u8::from(wants))?;
        Ok(out)
    }

    // A depth, mostly as it has to be.
    fn depth(&mut self, is_host: bool) -> u8 {
        let depth = if is_host {
            0
        } else if self.numbers.once_in(16) {
            199 + self.numbers.below(2) as u8
        } else {
            2 + self.numbers.below(3) as u8
        };
        if !self.numbers.once_in(48) {
            return depth;
        }
        match self.numbers.below(6) {
            0 => 0,
            1 => 1,
            2 => 199,
            3 => 200,
            4 => 201,
            _ => 255,
        }
    }

    // Arguments and blocks, mostly as many as there have to be.
    fn parts(&mut self, alloc: Global, entry: &Entry) -> Result<Parts, AllocError> {
        let mut parts = Parts {
            args: Vec::new(alloc),
            blocks: Vec::new(alloc),
        };
        for param in entry.params {
            self.push_argument(alloc, *param, &mut parts)?;
        }
        if self.numbers.once_in(64) {
            let mut arg = Vec::new(alloc);
            self.push_cell(&mut arg, INT, false)?;
            parts.args.push(arg)?;
        } else if self.numbers.once_in(64) {
            parts.args.pop();
        }
        if self.numbers.once_in(64) {
            let mut block = Vec::new(alloc);
            block.extend_from_slice(&[0, 0, 0, 1, INT])?;
            self.push_cell(&mut block, INT, false)?;
            parts.blocks.push(block)?;
        }
        if let Gives::Sealed = entry.gives {
            self.given = self.given.wrapping_add(1);
        }
        Ok(parts)
    }

    fn push_argument(
        &mut self,
        alloc: Global,
        param: Param,
        parts: &mut Parts,
    ) -> Result<(), AllocError> {
        let mut arg = Vec::new(alloc);
        match param {
            Param::Plain(ty) => self.push_cell(&mut arg, ty, false)?,
            Param::Marked(ty) => self.push_cell(&mut arg, ty, true)?,
            Param::ToConst(to) | Param::ToTold(to) | Param::ToMarked(to) => {
                match self.numbers.below(24) {
                    0 => arg.push(2)?,
                    1 => self.push_cell(&mut arg, INT, false)?,
                    _ => self.push_pointer(alloc, to, param, &mut arg, &mut parts.blocks)?,
                }
            }
        }
        parts.args.push(arg)?;
        Ok(())
    }

    // A pointer into a block of its own.
    fn push_pointer(
        &mut self,
        alloc: Global,
        to: Pointee,
        param: Param,
        arg: &mut Vec<u8>,
        blocks: &mut Vec<Vec<u8>>,
    ) -> Result<(), AllocError> {
        let count = 1 + self.numbers.below(4);
        let base = self.numbers.below(3);
        let behind = self.numbers.below(2);
        let cells = count.wrapping_mul(to.size());
        let block = self.block(alloc, to, param.is_marked(), [base, cells, behind])?;
        if !param.is_const() {
            self.given = self.given.wrapping_add(count);
        }
        let index = if self.numbers.once_in(8) {
            count
        } else {
            self.numbers.below(count)
        };
        let pointer = self.spoilt(Pointer {
            block: blocks.len() as u64,
            base,
            count,
            index,
        });
        blocks.push(block)?;
        arg.push(3)?;
        push_big(arg, pointer.block, 1)?;
        push_big(arg, pointer.base, 4)?;
        push_big(arg, pointer.count, 4)?;
        push_big(arg, pointer.index, 4)
    }

    // The pointer, rarely with another field.
    fn spoilt(&mut self, pointer: Pointer) -> Pointer {
        let mut pointer = pointer;
        match self.numbers.below(64) {
            0 => pointer.block = pointer.block.wrapping_add(1),
            1 => pointer.base = pointer.base.wrapping_add(1),
            2 => pointer.count = pointer.count.wrapping_add(1),
            3 => pointer.index = pointer.index.wrapping_add(1),
            4 => pointer.base = 0xffff_ffff,
            5 => pointer.count = 0xffff_ffff,
            6 => pointer.count = 0,
            _ => {}
        }
        pointer
    }

    // A block of cells that no argument reaches, cells of elements, and such cells again.
    fn block(
        &mut self,
        alloc: Global,
        to: Pointee,
        marked: bool,
        counts: [u64; 3],
    ) -> Result<Vec<u8>, AllocError> {
        let [base, cells, behind] = counts;
        let mut block = Vec::new(alloc);
        push_big(&mut block, base.wrapping_add(cells).wrapping_add(behind), 4)?;
        for _ in 0..base {
            self.push_other(&mut block)?;
        }
        for at in 0..cells {
            let field = to.field(at);
            let other = self.numbers.once_in(256);
            block.push(if other {
                field.ty.wrapping_add(1) % 9
            } else {
                field.ty
            })?;
            self.push_cell(&mut block, field.ty, marked || field.marked)?;
        }
        for _ in 0..behind {
            self.push_other(&mut block)?;
        }
        Ok(block)
    }

    // A cell that no argument reaches.
    fn push_other(&mut self, out: &mut Vec<u8>) -> Result<(), AllocError> {
        let ty = self.numbers.below(9) as u8;
        let marked = self.numbers.once_in(4);
        out.push(ty)?;
        self.push_cell(out, ty, marked)
    }

    // A number or a handle: mostly a handle where that is marked and one was given, else mostly a number.
    fn push_cell(&mut self, out: &mut Vec<u8>, ty: u8, marked: bool) -> Result<(), AllocError> {
        let is_handle = if marked {
            self.numbers.below(8) < if self.given == 0 { 1 } else { 7 }
        } else {
            self.numbers.once_in(128)
        };
        out.push(u8::from(is_handle))?;
        if is_handle {
            push_big(out, self.handle(), 8)
        } else {
            out.extend_from_slice(&self.number(ty).to_be_bytes())
        }
    }
}

// Whether a reply may hold a number.
fn tells(entry: &Entry) -> bool {
    let told = matches!(entry.gives, Gives::Told);
    told || entry
        .params
        .iter()
        .any(|param| matches!(param, Param::ToTold(_)))
}

fn push_list(out: &mut Vec<u8>, parts: &Vec<Vec<u8>>) -> Result<(), AllocError> {
    push_big(out, parts.len() as u64, 1)?;
    for part in parts {
        out.extend_from_slice(part)?;
    }
    Ok(())
}
