// Integers as words, and words as cells.
ghost use Rattle.std.specs.Prelude.{◌≡◌, ◌+◌, ◌<◌, ◌≤◌, length, IfOk, IfSome, MatchOption, slice_get, slice_index_or, Some, pos};
ghost use Rattle.block_memory.specs.declared.cell.Cell.TheVariants.{Int};
ghost use Rattle.word_arithmetic.specs.Words;
ghost use Rattle.machine_memory.specs.Words.{number_cell, numbers};

use block_memory::Cell;
use pt_base::IntType;
use std::alloc::{AllocError, Global};
use word_arithmetic::{number, word};

/// Whether a word of this type is read without a sign.
#[inline]
pub(crate) fn is_wide(t: IntType) -> bool
    ensures { result ≡ Words.is_wide t }
{
    match t {
        IntType::ULong => true,
        IntType::Char
        | IntType::SChar
        | IntType::UChar
        | IntType::Short
        | IntType::UShort
        | IntType::Int
        | IntType::UInt
        | IntType::Long => false,
    }
}

/// The integer that a word of this type is.
#[inline]
pub(crate) fn cell_of(t: IntType, w: i64) -> Cell
    ensures { result ≡ number_cell t w }
{
    Cell::Int(number(w, is_wide(t)))
}

/// The integer of this type whose word is at a place.
#[inline]
pub(crate) fn cell_at(t: IntType, words: &[i64], at: usize) -> Cell
    requires { at < length words.now }
    ensures { result ≡ number_cell t (slice_index_or words.now at (pos 0)) }
{
    cell_of(t, words[at])
}

/// The word that holds this cell in an integer of this type, if one does.
#[inline]
pub(crate) fn word_for(t: IntType, c: Cell) -> Option<i64>
    ensures { IfSome result (λ w. number_cell t w ≡ c) }
{
    match c {
        Cell::Int(v) => word(v, is_wide(t)),
        Cell::Ptr(_) | Cell::Sealed(_) => None,
    }
}

/// The cells of integers of these types whose words begin at a place.
pub(crate) fn unpacked(
    alloc: Global,
    types: &[IntType],
    words: &[i64],
    at: usize,
) -> Result<Vec<Cell>, AllocError>
    requires { at + length types.now ≤ length words.now }
    ensures { IfOk result (λ cells. cells.items ≡ numbers types.now words.now at) }
{
    let mut cells = Vec::new(alloc);
    for (i, t) in types.iter().enumerate() {
        cells.push(cell_at(*t, words, at + i))?;
    }
    Ok(cells)
}

/// The words that hold these cells in integers of these types, if each has one.
pub(crate) fn packed(
    alloc: Global,
    types: &[IntType],
    cells: &[Cell],
) -> Result<Option<Vec<i64>>, AllocError>
    requires { length types.now ≡ length cells.now }
    ensures { IfOk result (λ words. IfSome words (λ ws. (length ws.items ≡ length types.now) × (numbers types.now ws.items 0 ≡ cells.now))) }
{
    let mut words = Vec::new(alloc);
    for (i, t) in types.iter().enumerate() {
        match word_for(*t, cells[i]) {
            Some(w) => words.push(w)?,
            None => return Ok(None),
        }
    }
    Ok(Some(words))
}
