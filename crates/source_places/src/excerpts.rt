// The line of a place as it is shown, with a mark under it.
ghost use Rattle.std.specs.Prelude.{◌≡◌, ◌++◌, OnOk, map};
ghost use Rattle.source_places.specs.Excerpts as is;
ghost use Rattle.source_places.specs.LinesSeen.{text_of};

use crate::lines::Lines;
use crate::pieces::{behind, first};
use crate::shown::push_shown;
use std::alloc::AllocError;

/// The most bytes of a line that are shown.
const MOST_SHOWN: usize = 200;

/// So many of them stand before the place, where not all are shown.
const SHOWN_BEFORE: usize = 80;

/// The most bytes of a quote.
const MOST_QUOTED: usize = 40;

// how many of a line's first bytes aren't shown
fn left_out(line: &[u8], before: usize) -> usize
    ensures { result ≡ is.left_out line.now before }
{
    if line.len() <= MOST_SHOWN {
        0
    } else {
        before.saturating_sub(SHOWN_BEFORE)
    }
}

// the bytes of a line that are shown
fn part_of(line: &[u8], out: usize) -> &[u8]
    ensures { result.now ≡ is.part_of line.now out }
{
    first(behind(line, out), MOST_SHOWN)
}

// appends what stands for bytes that aren't shown
fn push_dots(cut: bool, text: &mut Vec<u8>) -> Result<(), AllocError>
    ensures { OnOk result (text.new.items ≡ text.old.items ++ is.dots_if cut) }
{
    if cut {
        text.extend_from_slice(b"...")?;
    }
    Ok(())
}

// whether a line has bytes behind those that are shown
fn goes_on(line: &[u8], out: usize) -> bool
    ensures { result ≡ is.goes_on line.now out }
{
    MOST_SHOWN < line.len() && out < line.len() - MOST_SHOWN
}

// appends a line as it is shown
fn push_line(line: &[u8], out: usize, text: &mut Vec<u8>) -> Result<(), AllocError>
    ensures { OnOk result (text.new.items ≡ text.old.items ++ is.shown_line line.now out) }
{
    push_dots(0 < out, text)?;
    push_shown(part_of(line, out), text)?;
    push_dots(goes_on(line, out), text)?;
    text.push(b'\n')?;
    Ok(())
}

// what stands under a byte: a tab under a tab
fn under(byte: u8, mark: u8) -> u8
    ensures { result ≡ is.under mark byte }
{
    if byte == b'\t' { b'\t' } else { mark }
}

// appends what stands under bytes
fn push_under(bytes: &[u8], mark: u8, text: &mut Vec<u8>) -> Result<(), AllocError>
    ensures { OnOk result (text.new.items ≡ text.old.items ++ map (is.under mark) bytes.now) }
{
    for byte in bytes {
        text.push(under(*byte, mark))?;
    }
    Ok(())
}

// appends a blank under what stands for bytes that aren't shown
fn push_indent(cut: bool, text: &mut Vec<u8>) -> Result<(), AllocError>
    ensures { OnOk result (text.new.items ≡ text.old.items ++ is.indent_if cut) }
{
    if cut {
        text.extend_from_slice(b"   ")?;
    }
    Ok(())
}

// appends a mark under a part of a line
fn push_marks(
    part: &[u8],
    before: usize,
    width: usize,
    text: &mut Vec<u8>,
) -> Result<(), AllocError>
    ensures { OnOk result (text.new.items ≡ text.old.items ++ is.marks_under part.now before width) }
{
    push_under(first(part, before), b' ', text)?;
    text.push(b'^')?;
    let others = behind(behind(part, before), 1);
    push_under(first(others, width.saturating_sub(1)), b'~', text)?;
    text.push(b'\n')?;
    Ok(())
}

// appends a line with a mark under it
fn push_marked(
    line: &[u8],
    before: usize,
    width: usize,
    text: &mut Vec<u8>,
) -> Result<(), AllocError>
    ensures { OnOk result (text.new.items ≡ text.old.items ++ is.excerpt_of line.now before width) }
{
    let out = left_out(line, before);
    push_line(line, out, text)?;
    push_indent(0 < out, text)?;
    push_marks(part_of(line, out), before.saturating_sub(out), width, text)
}

// appends a part of a line between backquotes
fn push_quote(
    line: &[u8],
    before: usize,
    width: usize,
    text: &mut Vec<u8>,
) -> Result<(), AllocError>
    ensures { OnOk result (text.new.items ≡ text.old.items ++ is.quoted_of line.now before width) }
{
    let bytes = first(behind(line, before), width.min(MOST_QUOTED));
    text.push(b'`')?;
    push_shown(bytes, text)?;
    push_dots(bytes.len() < width, text)?;
    text.push(b'`')?;
    Ok(())
}

impl Lines<'_> {
    /// Appends the line of an offset and, in a line of its own, a mark under so many bytes from there on. Of a
    /// line of more than 200 bytes the 200 around the offset are shown, and `...` for the others. Where memory
    /// is wanting, a first part of it may stand there.
    pub fn push_excerpt(
        &self,
        at: usize,
        width: usize,
        text: &mut Vec<u8>,
    ) -> Result<(), AllocError>
        ensures { OnOk result (text.new.items ≡ text.old.items ++ is.excerpt (text_of self.now) at width) }
    {
        let place = self.place_of(at);
        push_marked(self.line_at(place.line), place.column - 1, width, text)
    }

    /// Appends the line of this number, counted from 1, and, in a line of its own, a mark under all its bytes.
    /// Of a line of more than 200 bytes the first 200 are shown, and `...` for the others. Where memory is
    /// wanting, a first part of it may stand there.
    pub fn push_line_excerpt(&self, line: usize, text: &mut Vec<u8>) -> Result<(), AllocError>
        ensures { OnOk result (text.new.items ≡ text.old.items ++ is.line_excerpt (text_of self.now) line) }
    {
        let bytes = self.line_at(line);
        push_marked(bytes, 0, bytes.len(), text)
    }

    /// Appends so many bytes from an offset on between backquotes: as far as its line goes, and at most 40,
    /// with `...` where that isn't all. Where memory is wanting, a first part of it may stand there.
    pub fn push_quoted(&self, at: usize, width: usize, text: &mut Vec<u8>) -> Result<(), AllocError>
        ensures { OnOk result (text.new.items ≡ text.old.items ++ is.quoted (text_of self.now) at width) }
    {
        let place = self.place_of(at);
        push_quote(self.line_at(place.line), place.column - 1, width, text)
    }
}
