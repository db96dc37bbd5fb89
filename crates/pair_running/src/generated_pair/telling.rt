// The line that tells of a run.
ghost use Rattle.std.specs.Prelude.{◌≡◌, ◌++◌, IfOk, OnOk, length};
ghost use Rattle.std.specs.Fmt.{decimal};
ghost use Rattle.pair_running.specs.GeneratedPairTelling.{line_of, told_of};

use itoa::Buffer;
use pt_base::End;
use std::alloc::{AllocError, Global};

/// What a program was made from.
#[derive(Clone, Copy)]
pub(crate) struct Made {
    pub seed: u32,
    pub functions: u32,
}

// Appends a text and behind it a number in decimal.
fn push_numbered(text: &[u8], number: usize, to: &mut Vec<u8>) -> Result<(), AllocError>
    ensures { OnOk result (to.new.items ≡ to.old.items ++ text.now ++ decimal number) }
{
    let mut digits = Buffer::new();
    to.extend_from_slice(text)?;
    to.extend_from_slice(digits.format(number).as_bytes())
}

// The line of a run that came to its end: what the program was made from, how long it is, and how much was written.
fn line(alloc: Global, made: Made, program: &[u8], written: &[u8]) -> Result<Vec<u8>, AllocError>
    ensures { IfOk result (λ line. line.items ≡ line_of made.seed made.functions (length program.now) (length written.now)) }
{
    let mut line = Vec::new(alloc);
    push_numbered(b"gen ", made.seed as usize, &mut line)?;
    push_numbered(b" ", made.functions as usize, &mut line)?;
    push_numbered(b" program ", program.len(), &mut line)?;
    push_numbered(b" output ", written.len(), &mut line)?;
    line.push(b'\n')?;
    Ok(line)
}

/// What is told of a run: a line where main returned, else nothing.
pub(crate) fn told(
    alloc: Global,
    made: Made,
    program: &[u8],
    written: &[u8],
    end: &End,
) -> Result<Vec<u8>, AllocError>
    ensures { IfOk result (λ told. told.items ≡ told_of (line_of made.seed made.functions (length program.now) (length written.now)) end.now) }
{
    match end {
        End::Exit(_) => line(alloc, made, program, written),
        End::Trapped(..) | End::Spent | End::Refused { .. } => Ok(Vec::new(alloc)),
    }
}
