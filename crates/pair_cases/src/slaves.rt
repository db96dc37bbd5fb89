// A slave that is given replies.
ghost use Rattle.std.specs.Prelude.{IfOk, IsTrue};
ghost use Rattle.host_models.specs.Fitting.{fits};
ghost use Rattle.pt_core.specs.CodeTree.{view_boot};
ghost use Rattle.pt_core.specs.WellFormed.{is_well_formed_boot};

use crate::frames::frame_of;
use crate::texts::{Texts, pair_of};
use anyhow::{Result, bail};
use boot_rules::{BootError, read_boot};
use boots::boot_bytes;
use case_rows::{bytes_of, first_word, push_hex};
use marshalling::BadReply;
use pt_core::Boot;
use slave_interp::{Mode, Ran, Slave};
use std::alloc::Global;
use std::thread::Threads;
use wire::{Message, Reader, ReplyBody};

/// So many steps at once, and so many times.
const STEPS: u64 = 1_000_000;

const TIMES: u32 = 10_000;

/// So many bytes are shown.
const SHOWN: usize = 400;

/// What the slave of the texts says within a row's turns, where it is given the replies whose frames the row spells behind
/// them, with `|` between them. A reply is given where the slave waits for one.
///
/// # Errors
///
/// A row of no such form, texts with faults, and want of memory.
pub fn slave<R: Threads + Sync>(rt: &R, alloc: Global, texts: &Texts, row: &str) -> Result<String> {
    let (turns, stream) = first_word(row);
    let mut told = format!(in alloc; "slave {row}")?;
    let boot = boot_of(rt, alloc, texts, turns.parse::<u32>()?)?;
    let mut slave = Slave::new(alloc, boot)?;
    push_talk(alloc, &mut told, &mut slave, stream)?;
    Ok(told)
}

// Appends what the slave says and takes where it is given these replies, and what it does behind them.
fn push_talk(alloc: Global, told: &mut String, slave: &mut Slave, stream: &str) -> Result<()> {
    let mut replies = stream.split("|");
    for _ in 0..TIMES {
        match slave.mode() {
            Mode::Going => push_said(alloc, told, slave)?,
            Mode::Waits => {
                let Some(reply) = replies.next() else {
                    break;
                };
                if reply.is_empty() {
                    break;
                }
                push_taken(alloc, told, slave, reply)?;
            }
            Mode::Over => break,
        }
    }
    push_mode(told, slave.mode())
}

// The boot of the texts, read again from its bytes.
fn boot_of<R: Threads + Sync>(rt: &R, alloc: Global, texts: &Texts, turns: u32) -> Result<Boot>
    ensures { IfOk result (λ boot. IsTrue (is_well_formed_boot fits (view_boot boot))) }
{
    let pair = pair_of(rt, alloc, texts.program(), texts.beside(turns))?;
    let bytes = boot_bytes(alloc, &pair.boot)?;
    match read_boot(alloc, &bytes) {
        Ok(boot) => Ok(boot),
        Err(BootError::BadBoot) => bail!("the boot isn't well formed"),
        Err(BootError::Memory) => bail!("out of memory"),
    }
}

// Appends the frame of what the slave says next, if it says something.
fn push_said(alloc: Global, told: &mut String, slave: &mut Slave) -> Result<()> {
    let Ran { said, made: _ } = slave.run(alloc, STEPS)?;
    let Some(message) = said else {
        return Ok(());
    };
    told.push_str("\n  says ")?;
    push_hex(told, &frame_of(alloc, &message)?, SHOWN)?;
    Ok(())
}

// Gives the slave a reply, and appends whether it takes it.
fn push_taken(alloc: Global, told: &mut String, slave: &mut Slave, reply: &str) -> Result<()> {
    let body = reply_of(alloc, reply)?;
    match slave.take(alloc, &body) {
        Ok(()) => Ok(told.push_str("\n  takes the reply")?),
        Err(BadReply::Shape) => Ok(told.push_str("\n  refuses the reply")?),
        Err(BadReply::Memory) => bail!("out of memory"),
    }
}

// The reply whose frame this is.
fn reply_of(alloc: Global, frame: &str) -> Result<ReplyBody> {
    let bytes = bytes_of(alloc, frame)?;
    let mut reader = Reader::new(alloc);
    reader.feed(&bytes)?;
    match reader.next(alloc) {
        Ok(Some((Message::Reply(body), _))) => Ok(body),
        _ => bail!("no reply's frame"),
    }
}

fn push_mode(told: &mut String, mode: Mode) -> Result<()> {
    let name = match mode {
        Mode::Going => "goes on",
        Mode::Waits => "waits",
        Mode::Over => "is over",
    };
    Ok(write!(told, "\n  {name}")?)
}
