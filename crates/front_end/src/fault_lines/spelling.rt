// Numbers and places as lines spell them.
ghost use Rattle.std.specs.Prelude.{◌≡◌, ◌++◌, OnOk, codes};
ghost use Rattle.std.specs.Fmt.{decimal};
ghost use Rattle.front_end.specs.FaultLines.{numbered, place_text};

use itoa::Buffer;
use pt_base::Span;
use std::alloc::AllocError;

/// Appends a number in decimal.
pub(crate) fn push_number(number: u32, line: &mut Vec<u8>) -> Result<(), AllocError>
    ensures { OnOk result (line.new.items ≡ line.old.items ++ decimal number) }
{
    let mut buffer = Buffer::new();
    line.extend_from_slice(buffer.format(number).as_bytes())?;
    Ok(())
}

/// Appends the number of a fault and its name. Where memory is wanting, a first part of it may stand there.
pub fn push_numbered(number: u8, name: &str, line: &mut Vec<u8>) -> Result<(), AllocError>
    ensures { OnOk result (line.new.items ≡ line.old.items ++ numbered number name.now) }
{
    push_number(u32::from(number), line)?;
    line.push(b' ')?;
    line.extend_from_slice(name.as_bytes())?;
    Ok(())
}

/// Appends a stretch of the text, as `FROM..TO`. Where memory is wanting, a first part of it may stand there.
pub fn push_span(span: Span, line: &mut Vec<u8>) -> Result<(), AllocError>
    ensures { OnOk result (line.new.items ≡ line.old.items ++ place_text span) }
{
    push_number(span.from, line)?;
    line.extend_from_slice(b"..")?;
    push_number(span.to, line)
}
