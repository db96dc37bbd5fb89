// A block of integers that stands by itself.
ghost use Rattle.std.specs.Prelude.{◌≡◌, ◌<◌, false, length};
ghost use Rattle.std.specs.Bool.{OnTrue};
ghost use Rattle.machine_memory.specs.Held.{AreAlike, AreMany, IsRead, IsReading};

use crate::cells::Cells;
use crate::packing::{cell_at, is_wide, packed, unpacked, word_for};
use block_memory::Cell;
use pt_base::IntType;
use std::alloc::{AllocError, Global};
use std::marker::Model;

/// A block of integers. Each is a word; once something was written that a word can't hold, the
/// block is open: then it is its cells. Contracts see the block.
#[derive(Drop)]
pub(crate) struct HeldBlock {
    types: Vec<IntType>,
    words: Vec<i64>,
    // How many words there are, if the block is closed and each is read with a sign, else 0.
    signed_count: usize,
    // The same if all are read alike, whichever way.
    alike_count: usize,
    opened: bool,
    reading: Reading,
    cells: Cells,
}

impl Model for HeldBlock {
    ghost use Rattle.block_memory.specs.Block.{Block};

    ghost Value = { Block };

    ghost use Rattle.machine_memory.specs.Held.{held_cells, IsKept};

    ghost view = { λ b. record { types = b.types.items; cells = held_cells b.types.items b.words.items b.opened b.cells } };

    ghost invariant = { λ b. IsKept b.types.items b.words.items b.signed_count b.alike_count b.opened b.reading b.cells };
}

impl HeldBlock {
    ghost use Rattle.std.specs.Prelude.{◌≡◌, false, length, IfOk, IfSome, None, OnErr, OnOk, pos, slice_get, slice_index_or, Some};
    ghost use Rattle.block_memory.specs.declared.cell.Cell.TheVariants.{Int};
    ghost use Rattle.block_memory.specs.Block.{no_block, with_cell};
    ghost use Rattle.word_arithmetic.specs.Words.{number_of};
    ghost use Rattle.machine_memory.specs.Held.{Writes};
    ghost use Rattle.machine_memory.specs.Words.{IsWordOf};

    /// A block of no cells.
    pub(crate) fn new(alloc: Global) -> HeldBlock
        ensures { result ≡ no_block }
    {
        HeldBlock {
            types: Vec::new(alloc),
            words: Vec::new(alloc),
            signed_count: 0,
            alike_count: 0,
            opened: false,
            reading: Reading::Each,
            cells: Cells::new(Vec::new(alloc)),
        }
    }

    /// The block with these types and cells.
    pub(crate) fn of(
        alloc: Global,
        types: &[IntType],
        cells: &[Cell],
    ) -> Result<HeldBlock, AllocError>
        requires { length types.now ≡ length cells.now }
        ensures { IfOk result (λ b. b ≡ record { types = types.now; cells = cells.now }) }
    {
        let own = Vec::from_slice(alloc, types)?;
        match packed(alloc, types, cells)? {
            Some(words) => {
                let reading = common_reading(types);
                Ok(HeldBlock {
                    types: own,
                    words,
                    signed_count: signed_among(types, reading),
                    alike_count: alike_among(types, reading),
                    opened: false,
                    reading,
                    cells: Cells::new(Vec::new(alloc)),
                })
            }
            None => Ok(HeldBlock {
                types: own,
                words: vec![in alloc; 0i64; types.len()]?,
                signed_count: 0,
                alike_count: 0,
                opened: true,
                reading: Reading::Each,
                cells: Cells::new(Vec::from_slice(alloc, cells)?),
            }),
        }
    }

    pub(crate) fn types(&self) -> &[IntType]
        ensures { result.now ≡ self.now.types }
    {
        self.types.as_slice()
    }

    /// How many cells it has.
    pub(crate) fn len(&self) -> usize
        ensures { result ≡ length self.now.cells }
    {
        self.types.len()
    }

    /// A cell, 0 where it isn't there.
    pub(crate) fn cell(&self, at: usize) -> Cell
        ensures { result ≡ slice_index_or self.now.cells at (Int (pos 0)) }
    {
        if at >= self.types.len() {
            Cell::Int(0)
        } else if self.opened {
            self.cells.as_slice()[at]
        } else {
            cell_at(self.types[at], &self.words, at)
        }
    }

    /// The word of an integer, if it is there and read so.
    #[inline(always)]
    pub(crate) fn word(&self, at: usize, wide: bool) -> Option<i64>
        ensures { IfSome result (λ w. slice_get self.now.cells at ≡ Some (Int (number_of wide w))) }
    {
        if at < self.words.len() && is_read(self.reading, self.opened, &self.types, at, wide) {
            Some(self.words[at])
        } else {
            None
        }
    }

    /// Replaces the word of an integer, if it is there and read so.
    #[inline(always)]
    pub(crate) fn put_word(&mut self, at: usize, w: i64, wide: bool) -> bool
        ensures { Writes result self.old self.new at (Int (number_of wide w)) }
    {
        if at < self.words.len() && is_read(self.reading, self.opened, &self.types, at, wide) {
            self.words[at] = w;
            true
        } else {
            false
        }
    }

    /// The word of an integer, if it is there and the words of the block are all read with a sign.
    #[inline(always)]
    pub(crate) fn signed_word(&self, at: usize) -> Option<i64>
        ensures { IfSome result (IsWordOf (Some false) (slice_get self.now.cells at)) }
    {
        if at < self.signed_count {
            Some(self.words[at])
        } else {
            None
        }
    }

    /// The same if they are all read alike.
    #[inline(always)]
    pub(crate) fn alike_word(&self, at: usize) -> Option<i64>
        ensures { IfSome result (IsWordOf None (slice_get self.now.cells at)) }
    {
        if at < self.alike_count {
            Some(self.words[at])
        } else {
            None
        }
    }

    /// Replaces the word of an integer, if it is there and the words of the block are all read with a
    /// sign.
    #[inline(always)]
    pub(crate) fn put_signed(&mut self, at: usize, w: i64) -> bool
        ensures { Writes result self.old self.new at (Int (number_of false w)) }
    {
        if at < self.signed_count {
            self.words[at] = w;
            true
        } else {
            false
        }
    }

    /// Replaces a cell, if it is there.
    pub(crate) fn write(&mut self, alloc: Global, at: usize, c: Cell) -> Result<(), AllocError>
        ensures ok { OnOk result (self.new ≡ with_cell self.old at c) }
        ensures err { OnErr result (self.new ≡ self.old) }
    {
        if self.write_in_place(at, &c) {
            return Ok(());
        }
        let cells = self.copied(alloc)?;
        self.open_with(cells, at, c);
        Ok(())
    }

    /// Replaces all its cells by as many others.
    pub(crate) fn put_cells(&mut self, alloc: Global, cells: &[Cell]) -> Result<(), AllocError>
        requires { length cells.now ≡ length self.old.cells }
        ensures ok { OnOk result (self.new ≡ record { types = self.old.types; cells = cells.now }) }
        ensures err { OnErr result (self.new ≡ self.old) }
    {
        *self = HeldBlock::of(alloc, &self.types, cells)?;
        Ok(())
    }

    // Replaces a cell, if it can stand where it is to.
    fn write_in_place(&mut self, at: usize, c: &Cell) -> bool
        ensures { Writes result self.old self.new at c.now }
    {
        if at >= self.types.len() {
            return true;
        }
        if self.opened {
            self.cells.write(at, *c);
            return true;
        }
        match word_for(self.types[at], *c) {
            Some(w) => {
                self.words[at] = w;
                true
            }
            None => false,
        }
    }

    // Its cells, once more.
    fn copied(&self, alloc: Global) -> Result<Cells, AllocError>
        ensures { IfOk result (λ cells. cells ≡ self.now.cells) }
    {
        if self.opened {
            Ok(Cells::new(Vec::from_slice(alloc, self.cells.as_slice())?))
        } else {
            Ok(Cells::new(unpacked(alloc, &self.types, &self.words, 0)?))
        }
    }

    // Opens it: it is these cells, but for one.
    fn open_with(&mut self, cells: Cells, at: usize, c: Cell)
        requires { cells ≡ self.old.cells }
        ensures { self.new ≡ with_cell self.old at c }
    {
        self.opened = true;
        self.signed_count = 0;
        self.alike_count = 0;
        self.reading = Reading::Each;
        self.cells = cells;
        self.cells.write(at, c);
    }
}

/// How the words of a block are read.
#[derive(Clone, Copy)]
pub(crate) enum Reading {
    /// It is closed, and each is read with a sign.
    Signed,
    /// It is closed, and each is read as `unsigned long`.
    Wide,
    /// Each by its own type, if it is closed.
    Each,
}

// Whether the block is closed and the integer at a place is read so.
#[inline(always)]
fn is_read(reading: Reading, opened: bool, types: &[IntType], at: usize, wide: bool) -> bool
    requires inside { at < length types.now }
    requires reading { IsReading types.now opened reading }
    ensures { OnTrue result ((opened ≡ false) × IsRead types.now at wide) }
{
    match reading {
        Reading::Signed => !wide,
        Reading::Wide => wide,
        Reading::Each => is_read_alone(opened, types, at, wide),
    }
}

// The same, by the integer's own type.
#[inline(never)]
fn is_read_alone(opened: bool, types: &[IntType], at: usize, wide: bool) -> bool
    requires { at < length types.now }
    ensures { OnTrue result ((opened ≡ false) × IsRead types.now at wide) }
{
    !opened && is_wide(types[at]) == wide
}

// How the words of all these types are read, in a block that is closed.
fn common_reading(types: &[IntType]) -> Reading
    ensures { IsReading types.now false result }
{
    let wide = match types.first() {
        Some(t) => is_wide(*t),
        None => false,
    };
    for t in types {
        if is_wide(*t) != wide {
            return Reading::Each;
        }
    }
    if wide { Reading::Wide } else { Reading::Signed }
}

// How many words of a closed block are read with a sign: all of them, or none is promised.
fn signed_among(types: &[IntType], reading: Reading) -> usize
    requires { IsReading types.now false reading }
    ensures { AreMany types.now false false result }
{
    match reading {
        Reading::Signed => types.len(),
        Reading::Wide => 0,
        Reading::Each => 0,
    }
}

// The same of words that are read alike, whichever way.
fn alike_among(types: &[IntType], reading: Reading) -> usize
    requires { IsReading types.now false reading }
    ensures { AreAlike types.now false result }
{
    match reading {
        Reading::Signed => types.len(),
        Reading::Wide => types.len(),
        Reading::Each => 0,
    }
}
