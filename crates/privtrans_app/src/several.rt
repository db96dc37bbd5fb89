// What is told of several sessions.
ghost use Rattle.std.specs.Prelude.{◌≡◌, ◌++◌, IfOk, OnOk, codes, map};
ghost use Rattle.std.specs.Fmt.{decimal};
ghost use Rattle.pair_running.specs.ServedPairsTurns.{view_session};
ghost use Rattle.privtrans_app.specs.Sessions.{lines_from, session_line, session_text, texts_from};

use itoa::Buffer;
use pair_running::served_pairs::SessionEnd;
use pt_base::Bytes;
use refusal_lines::end_line;
use std::alloc::{AllocError, Global};

// Appends the word of a session, and its number.
fn push_session(number: usize, text: &mut Vec<u8>) -> Result<(), AllocError>
    ensures { OnOk result (text.new.items ≡ text.old.items ++ (codes "session " ++ decimal number ++ codes " ")) }
{
    let mut buffer = Buffer::new();
    text.extend_from_slice(b"session ")?;
    text.extend_from_slice(buffer.format(number).as_bytes())?;
    text.push(b' ')?;
    Ok(())
}

// Appends the line of a session with its length, and its bytes.
fn push_text(number: usize, session: &SessionEnd, text: &mut Vec<u8>) -> Result<(), AllocError>
    ensures { OnOk result (text.new.items ≡ text.old.items ++ session_text number (view_session session.now)) }
{
    let mut buffer = Buffer::new();
    let bytes = session.bytes.as_slice();
    push_session(number, text)?;
    text.extend_from_slice(buffer.format(bytes.len()).as_bytes())?;
    text.push(b'\n')?;
    text.extend_from_slice(bytes)?;
    Ok(())
}

// Appends the line that reports how a session ended.
fn push_line(
    alloc: Global,
    names: &[Bytes],
    number: usize,
    session: &SessionEnd,
    lines: &mut Vec<u8>,
) -> Result<(), AllocError>
    ensures { OnOk result (lines.new.items ≡ lines.old.items ++ session_line names.now number (view_session session.now)) }
{
    push_session(number, lines)?;
    let line = end_line(alloc, names, &session.end)?;
    lines.extend_from_slice(line.as_slice())?;
    Ok(())
}

/// The bytes of sessions, each behind a line with its number and its length.
pub(crate) fn session_texts(alloc: Global, sessions: &[SessionEnd]) -> Result<Vec<u8>, AllocError>
    ensures { IfOk result (λ text. text.items ≡ texts_from 0 (map view_session sessions.now)) }
{
    let mut text = Vec::new(alloc);
    for (number, session) in sessions.iter().enumerate() {
        push_text(number, session, &mut text)?;
    }
    Ok(text)
}

/// The lines that report how sessions ended, of a program whose functions have these names, by their numbers.
pub(crate) fn session_lines(
    alloc: Global,
    names: &[Bytes],
    sessions: &[SessionEnd],
) -> Result<Vec<u8>, AllocError>
    ensures { IfOk result (λ lines. lines.items ≡ lines_from names.now 0 (map view_session sessions.now)) }
{
    let mut lines = Vec::new(alloc);
    for (number, session) in sessions.iter().enumerate() {
        push_line(alloc, names, number, session, &mut lines)?;
    }
    Ok(lines)
}
