// The lines that report the faults of the front end.
ghost use Rattle.std.specs.Prelude.{◌≡◌, ◌++◌, IfOk, OnOk, Some};
ghost use Rattle.front_end.specs.FaultLines.{lex_line, parse_line, type_line, type_lines};
ghost use Rattle.front_end.specs.FrontLines.{front_lines};

use crate::fault_lines::spelling::{push_number, push_numbered, push_span};
use crate::{FrontError, ParseFault};
use c_lexer::LexFault;
use check_declarations::TypeFault;
use std::alloc::{AllocError, Global};

fn lex_line(alloc: Global, fault: LexFault) -> Result<Vec<u8>, AllocError>
    ensures { IfOk result (λ line. line.items ≡ lex_line fault) }
{
    let mut line = Vec::from_slice(alloc, b"lex ")?;
    push_numbered(fault.kind.number(), fault.kind.name(), &mut line)?;
    line.push(b' ')?;
    push_number(fault.at, &mut line)?;
    line.push(b'\n')?;
    Ok(line)
}

fn parse_line(alloc: Global, fault: ParseFault) -> Result<Vec<u8>, AllocError>
    ensures { IfOk result (λ line. line.items ≡ parse_line fault) }
{
    let mut line = Vec::from_slice(alloc, b"parse ")?;
    push_numbered(fault.kind.number(), fault.kind.name(), &mut line)?;
    line.push(b' ')?;
    push_number(fault.at, &mut line)?;
    line.push(b'\n')?;
    Ok(line)
}

fn push_type_line(fault: TypeFault, lines: &mut Vec<u8>) -> Result<(), AllocError>
    ensures { OnOk result (lines.new.items ≡ lines.old.items ++ type_line fault) }
{
    lines.extend_from_slice(b"types ")?;
    push_numbered(fault.kind.number(), fault.kind.name(), lines)?;
    lines.push(b' ')?;
    push_span(fault.span, lines)?;
    lines.push(b'\n')?;
    Ok(())
}

fn type_lines(alloc: Global, faults: &[TypeFault]) -> Result<Vec<u8>, AllocError>
    ensures { IfOk result (λ lines. lines.items ≡ type_lines faults.now) }
{
    let mut lines = Vec::new(alloc);
    for fault in faults {
        push_type_line(*fault, &mut lines)?;
    }
    Ok(lines)
}

/// The lines of the front end's faults.
///
/// # Errors
///
/// Want of memory, here or there.
pub fn front_lines(alloc: Global, error: FrontError) -> Result<Vec<u8>, AllocError>
    ensures { IfOk result (λ lines. front_lines error ≡ Some lines.items) }
{
    match error {
        FrontError::Lex(fault) => lex_line(alloc, fault),
        FrontError::Parse(fault) => parse_line(alloc, fault),
        FrontError::Types(faults) => type_lines(alloc, &faults),
        FrontError::Memory => Err(AllocError),
    }
}
