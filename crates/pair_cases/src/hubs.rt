// Sessions of one program, by the calls that a row spells.
ghost use Rattle.std.specs.Prelude.{IfOk, OnOk};
ghost use Rattle.wire.specs.Limits.{KeepsCounts};
ghost use Rattle.pair_texts.specs.Start as start;
ghost use Rattle.pair_cases.specs.Begun.{AreTextsOf, IsServed};

use crate::answers::push_end;
use crate::texts::{Texts, pair_of};
use anyhow::{Result, bail};
use case_rows::{bytes_of, first_word, push_bytes};
use monitor_interp::Handled;
use pair_laws::begun_pairs::{begun_monitors_are_well_formed, begun_monitors_hosts_serve};
use pair_texts::{Beside, Pair};
use sessions::{Hub, HubError};
use std::alloc::{AllocError, Global};
use std::thread::Threads;
use wire::{Message, Reader, ReplyBody, WireCell, are_bytes};

/// So many sessions a row opens at most.
const MOST: u32 = 100_000;

/// What the calls of a hub come to that a row spells behind its turns, with `|` between them: `open INPUT`, `opens COUNT`,
/// `handle SESSION FRAME` and `close SESSION`, with inputs and frames in hexadecimal.
///
/// # Errors
///
/// A row of no such form, texts with faults, and want of memory.
pub fn hub<R: Threads + Sync>(rt: &R, alloc: Global, texts: &Texts, row: &str) -> Result<String> {
    let (turns, calls) = first_word(row);
    let beside = texts.beside(turns.parse::<u32>()?);
    let hub = hub_of(rt, alloc, texts.program(), beside)?;
    let mut told = format!(in alloc; "hub {row}")?;
    push_calls(alloc, &mut told, hub, calls)?;
    Ok(told)
}

/// A hub of a program, with these texts beside it.
///
/// # Errors
///
/// Texts with faults, and want of memory.
pub fn hub_of<R: Threads + Sync>(
    rt: &R,
    alloc: Global,
    program: &[u8],
    beside: Beside<'_>,
) -> Result<Hub>
    ensures { IfOk result IsServed }
{
    are_bytes(beside.input);
    let pair = pair_of(rt, alloc, program, beside)?;
    let hub = begin(alloc, pair, beside.turns)?;
    Ok(hub)
}

// A hub of the pair's program.
fn begin(alloc: Global, pair: Pair, turns: u32) -> Result<Hub, AllocError>
    requires { (t : start.Texts) × AreTextsOf pair turns t }
    ensures { IfOk result IsServed }
{
    begun_monitors_are_well_formed();
    begun_monitors_hosts_serve();
    let hub = Hub::new(alloc, pair.monitor, pair.hosts, pair.policy, turns)?;
    Ok(hub)
}

// Appends what the calls of a hub come to.
fn push_calls(alloc: Global, told: &mut String, hub: Hub, calls: &str) -> Result<()>
    requires { IsServed hub }
{
    let mut hub = hub;
    for call in calls.split("|") {
        push_call(alloc, told, &mut hub, call)?;
    }
    Ok(())
}

// Appends what a call comes to.
fn push_call(alloc: Global, told: &mut String, hub: &mut Hub, call: &str) -> Result<()>
    requires { IsServed hub.old }
    ensures { OnOk result (IsServed hub.new) }
{
    let (word, rest) = first_word(call.trim());
    match word {
        "open" => push_opened(alloc, told, hub, rest),
        "opens" => push_opens(alloc, told, hub, rest),
        "handle" => push_read(alloc, told, hub, rest),
        "close" => push_closed(told, hub, rest),
        _ => bail!("no call of a hub: {word}"),
    }
}

// Opens a session with an input.
fn push_opened(alloc: Global, told: &mut String, hub: &mut Hub, input: &str) -> Result<()>
    requires { IsServed hub.old }
    ensures { OnOk result (IsServed hub.new) }
{
    let input = bytes_of(alloc, input)?;
    if hub.opened() >= MOST {
        bail!("too many sessions");
    }
    match hub.open(alloc, input.as_slice()) {
        Ok(number) => Ok(write!(told, "\n  opened {number}")?),
        Err(refused) => push_refused(told, refused),
    }
}

// Opens so many sessions without an input, and tells of the last one.
fn push_opens(alloc: Global, told: &mut String, hub: &mut Hub, count: &str) -> Result<()>
    requires { IsServed hub.old }
    ensures { OnOk result (IsServed hub.new) }
{
    let count = count.parse::<u32>()?;
    let mut last = String::new(alloc);
    for _ in 0..count {
        last = String::new(alloc);
        push_opened(alloc, &mut last, hub, "")?;
    }
    Ok(told.push_str(last.as_str())?)
}

// Handles the message of a session whose frame is spelled.
fn push_read(alloc: Global, told: &mut String, hub: &mut Hub, rest: &str) -> Result<()>
    requires { IsServed hub.old }
    ensures { OnOk result (IsServed hub.new) }
{
    let (session, frame) = first_word(rest);
    let session = session.parse::<u32>()?;
    let bytes = bytes_of(alloc, frame)?;
    let mut reader = Reader::new(alloc);
    reader.feed(&bytes)?;
    match reader.next(alloc) {
        Ok(Some((message, _))) => push_handled(alloc, told, hub, session, &message),
        _ => bail!("no message's frame"),
    }
}

// Handles a message of a session.
fn push_handled(
    alloc: Global,
    told: &mut String,
    hub: &mut Hub,
    session: u32,
    message: &Message,
) -> Result<()>
    requires counts { KeepsCounts message.now }
    requires served { IsServed hub.old }
    ensures { OnOk result (IsServed hub.new) }
{
    let mut out = Vec::new(alloc);
    match hub.handle(alloc, session, message, &mut out) {
        Ok(handled) => push_told(told, session, &handled, out.as_slice()),
        Err(refused) => push_refused(told, refused),
    }
}

// Closes a session.
fn push_closed(told: &mut String, hub: &mut Hub, session: &str) -> Result<()>
    requires { IsServed hub.old }
    ensures { OnOk result (IsServed hub.new) }
{
    let session = session.parse::<u32>()?;
    match hub.close(session) {
        Ok(()) => Ok(write!(told, "\n  closed {session}")?),
        Err(refused) => push_refused(told, refused),
    }
}

fn push_refused(told: &mut String, refused: HubError) -> Result<()> {
    match refused {
        HubError::Full => Ok(told.push_str("\n  full")?),
        HubError::NotOpen => Ok(told.push_str("\n  not open")?),
        HubError::Memory => bail!("out of memory"),
    }
}

// Appends what a message of a session came to, and what was written.
fn push_told(told: &mut String, session: u32, handled: &Handled, out: &[u8]) -> Result<()> {
    write!(told, "\n  {session} ")?;
    match handled {
        Handled::GoesOn(None) => told.push_str("goes on")?,
        Handled::GoesOn(Some(reply)) => push_reply(told, reply)?,
        Handled::Ended(end) => push_end(told, end)?,
        Handled::Bad(rule) => write!(told, "bad {}", rule.number())?,
    }
    if !out.is_empty() {
        told.push_str(", writes ")?;
        push_bytes(told, out)?;
    }
    Ok(())
}

fn push_reply(told: &mut String, reply: &ReplyBody) -> Result<(), AllocError> {
    told.push_str("replies")?;
    match reply.result {
        Some(cell) => push_cell(told, cell)?,
        None => told.push_str(" nothing")?,
    }
    for cell in reply.cells.as_slice() {
        push_cell(told, *cell)?;
    }
    Ok(())
}

fn push_cell(told: &mut String, cell: WireCell) -> Result<(), AllocError> {
    match cell {
        WireCell::Number(number) => write!(told, " {number}"),
        WireCell::Sealed(handle) => write!(told, " handle {handle}"),
    }
}
