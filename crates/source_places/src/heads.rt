// Places as lines begin with them.
ghost use Rattle.std.specs.Prelude.{◌≡◌, ◌++◌, OnOk};
ghost use Rattle.std.specs.Fmt.{decimal};
ghost use Rattle.source_places.specs.Heads as is;
ghost use Rattle.source_places.specs.LinesSeen.{text_of};

use crate::lines::Lines;
use crate::place::Place;
use crate::shown::push_shown;
use itoa::Buffer;
use std::alloc::AllocError;

/// Appends a number in decimal. Where memory is wanting, a first part of it may stand there.
pub fn push_number(number: usize, text: &mut Vec<u8>) -> Result<(), AllocError>
    ensures { OnOk result (text.new.items ≡ text.old.items ++ decimal number) }
{
    let mut buffer = Buffer::new();
    text.extend_from_slice(buffer.format(number).as_bytes())?;
    Ok(())
}

/// Appends `NAME:LINE:COLUMN: `, a place in the file of this name. Where memory is wanting, a first part of it
/// may stand there.
pub fn push_place(name: &[u8], place: Place, text: &mut Vec<u8>) -> Result<(), AllocError>
    ensures { OnOk result (text.new.items ≡ text.old.items ++ is.head_of name.now place) }
{
    push_shown(name, text)?;
    text.push(b':')?;
    push_number(place.line, text)?;
    text.push(b':')?;
    push_number(place.column, text)?;
    text.extend_from_slice(b": ")?;
    Ok(())
}

impl Lines<'_> {
    /// Appends `NAME:LINE:COLUMN: `, the place of an offset in the file of this name. Where memory is wanting,
    /// a first part of it may stand there.
    pub fn push_head(&self, name: &[u8], at: usize, text: &mut Vec<u8>) -> Result<(), AllocError>
        ensures { OnOk result (text.new.items ≡ text.old.items ++ is.head name.now (text_of self.now) at) }
    {
        push_place(name, self.place_of(at), text)
    }
}
