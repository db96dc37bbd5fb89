// A text that grows word by word, and its lines.
ghost use Rattle.std.specs.Prelude.{◌≡◌, ◌≤◌, ◌++◌, OnOk, replicate};
ghost use Rattle.c_printer.specs.Pieces.{suffix_for};
ghost use Rattle.c_printer.specs.Sheets.{columns_of};

use crate::gap::Gap;
use itoa::Buffer;
use pt_base::IntType;
use pt_tree::Constant;
use std::alloc::{AllocError, Global};
use std::marker::Model;

/// The most columns of a line, but for a word that is too long for one.
const WIDEST: usize = 100;

/// The levels from which on lines aren't indented further.
const DEEPEST: usize = 20;

/// A text that grows word by word. Lines are broken where the next word would pass column 100.
#[derive(Drop)]
pub struct Sheet {
    bytes: Vec<u8>,
    /// The columns of the last line.
    column: usize,
    /// The columns by which that line was indented.
    indent: usize,
}

impl Model for Sheet {
    ghost use Rattle.c_printer.specs.Sheets.{Written};

    ghost Value = { Written };

    ghost use Rattle.std.specs.Prelude.{◌≤◌};

    ghost view = { λ s. record { bytes = s.bytes.items; column = s.column; indent = s.indent } };

    ghost invariant = { λ s. s.indent ≤ 40 };
}

impl Sheet {
    ghost use Rattle.std.specs.Prelude.{◌≡◌, ◌+◌, ◌++◌, ◌∷◌, [], ◌≤◌, IfOk, OnOk, length, nat_le};
    ghost use Rattle.c_printer.specs.Pieces.{number};
    ghost use Rattle.c_printer.specs.Sheets.{behind, below, continued, columns_of, heading, laid, put};
    ghost use Rattle.c_printer.specs.Gaps.{view_gap};

    /// A text that begins with a comment. It takes time and memory in the comment's size.
    pub fn new(alloc: Global, comment: &[u8]) -> Result<Sheet, AllocError>
        ensures { IfOk result (λ s. s ≡ heading comment.now) }
    {
        let mut bytes = Vec::from_slice(alloc, b"/* ")?;
        bytes.extend_from_slice(comment)?;
        bytes.extend_from_slice(b" */")?;
        Ok(Sheet {
            bytes,
            column: 6 + comment.len(),
            indent: 0,
        })
    }

    /// The whole text, which ends with a line feed. It takes memory only where the text has to move.
    pub fn finish(self) -> Result<Vec<u8>, AllocError>
        ensures { IfOk result (λ text. text.items ≡ self.bytes ++ (10 ∷ [])) }
    {
        let mut bytes = self.bytes;
        bytes.push(b'\n')?;
        Ok(bytes)
    }

    /// Writes a word. Where memory is wanting, a first part of it may stand there.
    pub(crate) fn word(&mut self, gap: Gap, word: &[u8]) -> Result<(), AllocError>
        ensures { OnOk result (self.new ≡ laid (view_gap gap) word.now self.old) }
    {
        self.joined(gap, word, b"")
    }

    /// Writes a decimal constant with the suffix that gives it its type.
    pub(crate) fn constant(&mut self, gap: Gap, constant: Constant) -> Result<(), AllocError>
        ensures { OnOk result (self.new ≡ put (number (view_gap gap) constant.value constant.ty) self.old) }
    {
        let mut digits = Buffer::new();
        let digits = digits.format(constant.value).as_bytes();
        self.joined(gap, digits, suffix_for(constant.ty))
    }

    /// Writes a word that is given in two parts.
    fn joined(&mut self, gap: Gap, front: &[u8], back: &[u8]) -> Result<(), AllocError>
        requires { length back.now ≤ 2 }
        ensures { OnOk result (self.new ≡ laid (view_gap gap) (front.now ++ back.now) self.old) }
    {
        match gap {
            Gap::Tight => self.continued(b"", front, back),
            Gap::Spaced => self.continued(b" ", front, back),
            Gap::Line(levels) => {
                let columns = columns_of(levels);
                self.below(columns, front, back)?;
                self.indent = columns;
                Ok(())
            }
            Gap::Apart => {
                self.bytes.push(b'\n')?;
                self.below(0, front, back)?;
                self.indent = 0;
                Ok(())
            }
        }
    }

    /// Writes a word on the line, or on a new one where the line has no room for it.
    fn continued(&mut self, gap: &[u8], front: &[u8], back: &[u8]) -> Result<(), AllocError>
        requires { (length gap.now ≤ 1) × (length back.now ≤ 2) }
        ensures { OnOk result (self.new ≡ continued gap.now (front.now ++ back.now) self.old) }
    {
        let more = gap.len() + front.len() + back.len();
        if self.has_room(more) {
            self.bytes.extend_from_slice(gap)?;
            self.bytes.extend_from_slice(front)?;
            self.bytes.extend_from_slice(back)?;
            self.column += more;
            Ok(())
        } else {
            self.below(self.indent + 4, front, back)
        }
    }

    /// The line has room for so many bytes more.
    fn has_room(&self, more: usize) -> bool
        ensures { result ≡ nat_le (self.now.column + more) 100 }
    {
        self.column <= WIDEST && more <= WIDEST - self.column
    }

    /// Writes a word on a new line, behind so many spaces.
    fn below(&mut self, columns: usize, front: &[u8], back: &[u8]) -> Result<(), AllocError>
        requires { (columns ≤ 44) × (length back.now ≤ 2) }
        ensures { OnOk result (self.new ≡ below columns (front.now ++ back.now) self.old) }
    {
        self.bytes.push(b'\n')?;
        add_spaces(&mut self.bytes, columns)?;
        self.bytes.extend_from_slice(front)?;
        self.bytes.extend_from_slice(back)?;
        self.column = columns + front.len() + back.len();
        Ok(())
    }
}

/// The columns of so many levels.
fn columns_of(levels: usize) -> usize
    ensures is { result ≡ columns_of levels }
    ensures few { result ≤ 40 }
{
    2 * levels.min(DEEPEST)
}

/// Adds so many spaces.
fn add_spaces(bytes: &mut Vec<u8>, count: usize) -> Result<(), AllocError>
    requires { count ≤ 44 }
    ensures { OnOk result (bytes.new.items ≡ bytes.old.items ++ replicate count 32) }
{
    bytes.resize(bytes.len() + count, b' ')
}

/// The suffix that gives a decimal constant this type.
fn suffix_for(ty: IntType) -> &'static [u8]
    ensures { result.now ≡ suffix_for ty }
{
    match ty {
        IntType::UInt => b"u",
        IntType::Long => b"l",
        IntType::ULong => b"ul",
        _ => b"",
    }
}
