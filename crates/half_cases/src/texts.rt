// A program's halves as texts, and what each reads back as.
use anyhow::{Context, Result, bail};
use case_rows::{Silent, spelled};
use front_end::{FrontError, read_program};
use program_split::split;
use refusal_lines::refusal_lines;
use stages::Stop;
use std::alloc::Global;
use std::thread::Threads;

/// The row and what splitting its program comes to: both halves, as texts if they are to be shown, and as they
/// read back; or the lines of the first stage's faults that has one.
///
/// # Errors
///
/// A row that spells no text, and want of memory.
pub fn texts<R: Threads + Sync>(
    rt: &R,
    alloc: Global,
    row: &str,
    with_texts: bool,
) -> Result<String> {
    let text = spelled(alloc, row)?;
    let word = if with_texts { "texts" } else { "readings" };
    let mut told = format!(in alloc; "{word} {row}\n")?;
    match split(rt, alloc, text.as_bytes(), &Silent) {
        Ok(halves) => {
            push_half(alloc, &mut told, "slave", &halves.slave, with_texts)?;
            push_half(alloc, &mut told, "monitor", &halves.monitor, with_texts)?;
        }
        Err(Stop::Refused(refusal)) => {
            let lines = refusal_lines(alloc, refusal)?;
            told.push_str(str::from_utf8(&lines).context("the lines aren't UTF-8")?)?;
        }
        Err(Stop::Memory) => bail!("out of memory"),
    }
    Ok(told)
}

// Appends a half, where its text is to be shown, and what it reads back as.
fn push_half(
    alloc: Global,
    told: &mut String,
    half: &str,
    bytes: &[u8],
    with_text: bool,
) -> Result<()> {
    if with_text {
        told.push_str(str::from_utf8(bytes).context("a half isn't UTF-8")?)?;
    }
    push_reading(alloc, told, half, bytes)
}

// Appends how lexer and parser read a half. Its types aren't looked at: a half is no whole program.
fn push_reading(alloc: Global, told: &mut String, half: &str, bytes: &[u8]) -> Result<()> {
    match read_program(alloc, bytes) {
        Ok(_) | Err(FrontError::Types(_)) => Ok(write!(told, "the {half} reads back\n")?),
        Err(FrontError::Lex(fault)) => { push_fault(told, half, fault.kind.name(), fault.at) }
        Err(FrontError::Parse(fault)) => { push_fault(told, half, fault.kind.name(), fault.at) }
        Err(FrontError::Memory) => bail!("out of memory"),
    }
}

fn push_fault(told: &mut String, half: &str, name: &str, at: u32) -> Result<()> {
    Ok(write!(told, "the {half} reads back with {name} {at}\n")?)
}
