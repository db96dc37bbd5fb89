// By which ways secrets come to faults.
ghost use Rattle.std.specs.Prelude.{◌≡◌, ◌++◌, OnOk, codes};
ghost use Rattle.std.specs.Fmt.{decimal};
ghost use Rattle.source_places.specs.LinesSeen.{text_of};
ghost use Rattle.explaining.specs.FlowBlocks as is;

use crate::spans::push_span_excerpt;
use pt_base::Span;
use source_places::{Lines, push_number};
use std::alloc::AllocError;

/// The most moves of which each is shown.
const MOST_MOVES: usize = 8;

/// So many are shown of the first ones, and of the last ones, where there are more.
const ENDS: usize = 4;

// appends where a secret begins, with the cause
fn push_begins(
    name: &[u8],
    lines: &Lines<'_>,
    cause: &[u8],
    span: Span,
    text: &mut Vec<u8>,
) -> Result<(), AllocError>
    ensures { OnOk result (text.new.items ≡ text.old.items ++ is.begins_text name.now (text_of lines.now) cause.now span) }
{
    lines.push_head(name, span.from as usize, text)?;
    text.extend_from_slice(b"the secret begins here")?;
    text.extend_from_slice(cause)?;
    text.push(b'\n')?;
    Ok(())
}

// appends a value that moves
fn push_move(
    name: &[u8],
    lines: &Lines<'_>,
    span: Span,
    text: &mut Vec<u8>,
) -> Result<(), AllocError>
    ensures { OnOk result (text.new.items ≡ text.old.items ++ is.move_text name.now (text_of lines.now) span) }
{
    lines.push_head(name, span.from as usize, text)?;
    text.extend_from_slice(b"it moves here\n")?;
    push_span_excerpt(lines, span, text)
}

// appends values that move
fn push_moves(
    name: &[u8],
    lines: &Lines<'_>,
    spans: &[Span],
    text: &mut Vec<u8>,
) -> Result<(), AllocError>
    ensures { OnOk result (text.new.items ≡ text.old.items ++ is.moves_text name.now (text_of lines.now) spans.now) }
{
    for span in spans {
        push_move(name, lines, *span, text)?;
    }
    Ok(())
}

// appends how many moves are left out
fn push_left_out(count: usize, text: &mut Vec<u8>) -> Result<(), AllocError>
    ensures { OnOk result (text.new.items ≡ text.old.items ++ is.left_out_text count) }
{
    text.push(b'(')?;
    push_number(count, text)?;
    text.extend_from_slice(b" moves are left out)\n")?;
    Ok(())
}

// appends the steps of a way behind its first one
fn push_steps(
    name: &[u8],
    lines: &Lines<'_>,
    spans: &[Span],
    text: &mut Vec<u8>,
) -> Result<(), AllocError>
    ensures { OnOk result (text.new.items ≡ text.old.items ++ is.steps_text name.now (text_of lines.now) spans.now) }
{
    if spans.len() <= MOST_MOVES {
        return push_moves(name, lines, spans, text);
    }
    push_moves(name, lines, &spans[..ENDS], text)?;
    push_left_out(spans.len() - MOST_MOVES, text)?;
    push_moves(name, lines, &spans[spans.len() - ENDS..], text)
}

// appends a way of one step or more
fn push_long_way(
    name: &[u8],
    lines: &Lines<'_>,
    cause: &[u8],
    first: Span,
    others: &[Span],
    text: &mut Vec<u8>,
) -> Result<(), AllocError>
    ensures { OnOk result (text.new.items ≡ text.old.items ++ is.long_way name.now (text_of lines.now) cause.now first others.now) }
{
    push_begins(name, lines, cause, first, text)?;
    push_span_excerpt(lines, first, text)?;
    push_steps(name, lines, others, text)
}

/// Appends the way by which a secret comes to this place, with the cause of the secret.
pub(crate) fn push_way(
    name: &[u8],
    lines: &Lines<'_>,
    cause: &[u8],
    here: Span,
    spans: &[Span],
    text: &mut Vec<u8>,
) -> Result<(), AllocError>
    ensures { OnOk result (text.new.items ≡ text.old.items ++ is.way_text name.now (text_of lines.now) cause.now here spans.now) }
{
    match spans {
        [] => push_begins(name, lines, cause, here, text),
        [first, others @ ..] => push_long_way(name, lines, cause, *first, others, text),
    }
}
