// Places and lines, found by where lines start.
ghost use Rattle.std.specs.Prelude.{◌≡◌, IfOk};
ghost use Rattle.source_places.specs.LinesSeen.{text_of};
ghost use Rattle.source_places.specs.Places as is;

use crate::lines::Lines;
use crate::pieces::{behind, first};
use crate::place::Place;
use crate::starts::{begun, end_of, start_of, starts_in};
use std::alloc::{AllocError, Global};

impl<'a> Lines<'a> {
    /// The lines of this text. Time is linear in it, memory in the number of its lines.
    ///
    /// # Errors
    ///
    /// Want of memory.
    pub fn new(alloc: Global, text: &'a [u8]) -> Result<Lines<'a>, AllocError>
        ensures { IfOk result (λ lines. text_of lines ≡ text.now) }
    {
        let starts = starts_in(alloc, text)?;
        Ok(Lines { text, starts })
    }

    /// The place of an offset; of one behind the text's end that of the end. Time is logarithmic in the
    /// number of lines.
    pub fn place_of(&self, offset: usize) -> Place
        ensures { result ≡ is.place_at (text_of self.now) offset }
    {
        let list = self.starts.as_slice();
        let feeds = begun(list, offset);
        let within = feeds.min(list.len());
        let here = offset.min(self.text.len());
        Place {
            line: within + 1,
            column: here.saturating_sub(start_of(list, feeds)) + 1,
        }
    }

    /// The bytes of the line of this number, counted from 1, without its line feed; none where there is no
    /// such line. Time is constant.
    pub fn line_at(&self, line: usize) -> &[u8]
        ensures { result.now ≡ is.line_at (text_of self.now) line }
    {
        let list = self.starts.as_slice();
        let feeds = line.saturating_sub(1);
        if list.len() < feeds {
            return &[];
        }
        let end = end_of(list, feeds, self.text.len());
        behind(first(self.text, end), start_of(list, feeds))
    }
}
