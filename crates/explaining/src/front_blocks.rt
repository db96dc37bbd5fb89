// The blocks that explain faults of lexer, parser and types.
ghost use Rattle.std.specs.Prelude.{◌≡◌, ◌++◌, IfOk, OnOk, codes, length, ltb, slice_index_or};
ghost use Rattle.std.specs.List.{flat_map};
ghost use Rattle.front_end.specs.FaultLines as lines_are;
ghost use Rattle.source_places.specs.LinesSeen.{text_of};
ghost use Rattle.explaining.specs.FrontBlocks as is;

use crate::sentences::{lex_sentence, parse_sentence, type_sentence};
use crate::spans::push_span_excerpt;
use c_lexer::{LexFault, LexFaultKind};
use check_declarations::{FaultKind, TypeFault};
use front_end::{ParseFault, push_numbered, push_span};
use pt_base::Span;
use source_places::{Lines, push_number};
use stages::room_for;
use std::alloc::{AllocError, Global};

// the byte at an offset; 0 behind the end
fn byte_at(program: &[u8], at: u32) -> u8
    ensures { result ≡ slice_index_or program.now at 0 }
{
    match program.get(at as usize) {
        Some(byte) => *byte,
        None => 0,
    }
}

// whether an offset is one of the text
fn is_within(program: &[u8], at: u32) -> bool
    ensures { result ≡ ltb at (length program.now) }
{
    (at as usize) < program.len()
}

// appends the line that `check` reports of a text without tokens
fn push_lex_line(fault: LexFault, text: &mut Vec<u8>) -> Result<(), AllocError>
    ensures { OnOk result (text.new.items ≡ text.old.items ++ lines_are.lex_line fault) }
{
    text.extend_from_slice(b"lex ")?;
    push_numbered(fault.kind.number(), fault.kind.name(), text)?;
    text.push(b' ')?;
    push_number(fault.at as usize, text)?;
    text.push(b'\n')?;
    Ok(())
}

// appends the line that `check` reports of tokens that are no program
fn push_parse_line(fault: ParseFault, text: &mut Vec<u8>) -> Result<(), AllocError>
    ensures { OnOk result (text.new.items ≡ text.old.items ++ lines_are.parse_line fault) }
{
    text.extend_from_slice(b"parse ")?;
    push_numbered(fault.kind.number(), fault.kind.name(), text)?;
    text.push(b' ')?;
    push_number(fault.at as usize, text)?;
    text.push(b'\n')?;
    Ok(())
}

// appends the line that `check` reports of a type fault
fn push_type_line(fault: TypeFault, text: &mut Vec<u8>) -> Result<(), AllocError>
    ensures { OnOk result (text.new.items ≡ text.old.items ++ lines_are.type_line fault) }
{
    text.extend_from_slice(b"types ")?;
    push_numbered(fault.kind.number(), fault.kind.name(), text)?;
    text.push(b' ')?;
    push_span(fault.span, text)?;
    text.push(b'\n')?;
    Ok(())
}

/// Appends a sentence, and ends its line
pub(crate) fn push_sentence(sentence: &str, text: &mut Vec<u8>) -> Result<(), AllocError>
    ensures { OnOk result (text.new.items ≡ text.old.items ++ (sentence.now ++ codes "\n")) }
{
    text.extend_from_slice(sentence.as_bytes())?;
    text.push(b'\n')?;
    Ok(())
}

// appends the line of a fault's place, but not of a text that is too long
fn push_lex_excerpt(
    lines: &Lines<'_>,
    kind: LexFaultKind,
    at: u32,
    text: &mut Vec<u8>,
) -> Result<(), AllocError>
    ensures { OnOk result (text.new.items ≡ text.old.items ++ is.lex_excerpt (text_of lines.now) kind at) }
{
    match kind {
        LexFaultKind::BadByte => lines.push_excerpt(at as usize, 1, text),
        LexFaultKind::OpenComment => lines.push_excerpt(at as usize, 1, text),
        LexFaultKind::BadNumber => lines.push_excerpt(at as usize, 1, text),
        LexFaultKind::BadChar => lines.push_excerpt(at as usize, 1, text),
        LexFaultKind::TooLong => Ok(()),
    }
}

// appends what is said of the fault at this byte, with its line
fn push_lex_text(
    name: &[u8],
    lines: &Lines<'_>,
    fault: LexFault,
    byte: u8,
    text: &mut Vec<u8>,
) -> Result<(), AllocError>
    ensures { OnOk result (text.new.items ≡ text.old.items ++ is.lex_text name.now (text_of lines.now) fault byte) }
{
    lines.push_head(name, fault.at as usize, text)?;
    push_sentence(lex_sentence(fault.kind, byte), text)?;
    push_lex_excerpt(lines, fault.kind, fault.at, text)?;
    Ok(())
}

// the block of the fault at this byte
fn lex_block_at(
    alloc: Global,
    name: &[u8],
    lines: &Lines<'_>,
    fault: LexFault,
    byte: u8,
) -> Result<Vec<u8>, AllocError>
    ensures { IfOk result (λ text. text.items ≡ is.lex_block_at name.now (text_of lines.now) fault byte) }
{
    let mut text = Vec::new(alloc);
    push_lex_text(name, lines, fault, byte, &mut text)?;
    push_lex_line(fault, &mut text)?;
    text.push(b'\n')?;
    Ok(text)
}

/// The block that explains why the text of a file of this name has no tokens. Time is linear in the text and in what is
/// written.
///
/// # Errors
///
/// Want of memory alone.
pub fn lex_block(
    alloc: Global,
    name: &[u8],
    program: &[u8],
    fault: LexFault,
) -> Result<Vec<u8>, AllocError>
    ensures { IfOk result (λ text. text.items ≡ is.lex_block name.now program.now fault) }
{
    let lines = Lines::new(alloc, program)?;
    let byte = byte_at(program, fault.at);
    let text = lex_block_at(alloc, name, &lines, fault, byte)?;
    Ok(text)
}

// appends what is said of the fault, within the text or at its end, with its line
fn push_parse_text(
    name: &[u8],
    lines: &Lines<'_>,
    fault: ParseFault,
    within: bool,
    text: &mut Vec<u8>,
) -> Result<(), AllocError>
    ensures { OnOk result (text.new.items ≡ text.old.items ++ is.parse_text name.now (text_of lines.now) fault within) }
{
    lines.push_head(name, fault.at as usize, text)?;
    push_sentence(parse_sentence(fault.kind, within), text)?;
    lines.push_excerpt(fault.at as usize, 1, text)?;
    Ok(())
}

// the block of the fault, within the text or at its end
fn parse_block_in(
    alloc: Global,
    name: &[u8],
    lines: &Lines<'_>,
    fault: ParseFault,
    within: bool,
) -> Result<Vec<u8>, AllocError>
    ensures { IfOk result (λ text. text.items ≡ is.parse_block_in name.now (text_of lines.now) fault within) }
{
    let mut text = Vec::new(alloc);
    push_parse_text(name, lines, fault, within, &mut text)?;
    push_parse_line(fault, &mut text)?;
    text.push(b'\n')?;
    Ok(text)
}

/// The block that explains why the tokens of the text of a file of this name are no program. Time is linear in the text
/// and in what is written.
///
/// # Errors
///
/// Want of memory alone.
pub fn parse_block(
    alloc: Global,
    name: &[u8],
    program: &[u8],
    fault: ParseFault,
) -> Result<Vec<u8>, AllocError>
    ensures { IfOk result (λ text. text.items ≡ is.parse_block name.now program.now fault) }
{
    let lines = Lines::new(alloc, program)?;
    let within = is_within(program, fault.at);
    let text = parse_block_in(alloc, name, &lines, fault, within)?;
    Ok(text)
}

// appends the line of a fault's place, but not where there is no main
fn push_type_excerpt(
    lines: &Lines<'_>,
    kind: FaultKind,
    span: Span,
    text: &mut Vec<u8>,
) -> Result<(), AllocError>
    ensures { OnOk result (text.new.items ≡ text.old.items ++ is.type_excerpt (text_of lines.now) kind span) }
{
    match kind {
        FaultKind::NoMain => Ok(()),
        _ => push_span_excerpt(lines, span, text),
    }
}

// appends what is said of a type fault, with its line
fn push_type_text(
    name: &[u8],
    lines: &Lines<'_>,
    fault: TypeFault,
    text: &mut Vec<u8>,
) -> Result<(), AllocError>
    ensures { OnOk result (text.new.items ≡ text.old.items ++ is.type_text name.now (text_of lines.now) fault) }
{
    lines.push_head(name, fault.span.from as usize, text)?;
    push_sentence(type_sentence(fault.kind), text)?;
    push_type_excerpt(lines, fault.kind, fault.span, text)?;
    Ok(())
}

// appends the block of a type fault
fn push_type_block(
    name: &[u8],
    lines: &Lines<'_>,
    fault: TypeFault,
    text: &mut Vec<u8>,
) -> Result<(), AllocError>
    ensures { OnOk result (text.new.items ≡ text.old.items ++ is.type_block name.now (text_of lines.now) fault) }
{
    push_type_text(name, lines, fault, text)?;
    push_type_line(fault, text)?;
    text.push(b'\n')?;
    Ok(())
}

// the blocks of type faults
fn blocks_of(
    alloc: Global,
    name: &[u8],
    lines: &Lines<'_>,
    faults: &[TypeFault],
) -> Result<Vec<u8>, AllocError>
    ensures { IfOk result (λ text. text.items ≡ flat_map (is.type_block name.now (text_of lines.now)) faults.now) }
{
    let mut text = Vec::new(alloc);
    for fault in faults {
        push_type_block(name, lines, *fault, &mut text)?;
        room_for(text.as_slice())?;
    }
    Ok(text)
}

/// The blocks that explain the type faults of the program of this text, in a file of this name. Time is linear in the
/// text and in what is written, but for finding the lines of faults.
///
/// # Errors
///
/// Want of memory; more than [`MOST_BYTES`](stages::MOST_BYTES) of blocks are that too.
pub fn type_blocks(
    alloc: Global,
    name: &[u8],
    program: &[u8],
    faults: &[TypeFault],
) -> Result<Vec<u8>, AllocError>
    ensures { IfOk result (λ text. text.items ≡ flat_map (is.type_block name.now program.now) faults.now) }
{
    let lines = Lines::new(alloc, program)?;
    let text = blocks_of(alloc, name, &lines, faults)?;
    Ok(text)
}
