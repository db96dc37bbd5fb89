// What the whole tool tells of its work on functions, and whether two threads were at work at once.
use crate::files::file_of;
use crate::outside::{Failing, Outside};
use anyhow::{Result, bail};
use case_rows::{Meetings, first_word, spelled};
use pt_base::Alternate;
use std::alloc::Global;
use std::thread::Threads;

/// The status of a check of a program, with how its threads worked.
///
/// # Errors
///
/// A row that spells no text, and want of memory.
pub fn checked<R: Threads + Sync>(rt: &R, alloc: Global, row: &str) -> Result<String> {
    let meetings = Meetings::new(alloc)?;
    let status = call(rt, alloc, &["check", "program"], row, &meetings)?;
    Ok(format!(in alloc;
        "checked {row} => status {status}, edges {}",
        meetings.told()
    )?)
}

/// The status of a command on the program that the row spells behind it, how often two functions were begun
/// at once, and how often each was begun.
///
/// # Errors
///
/// A row of another command or that spells no text, and want of memory.
pub fn watched<R: Threads + Sync>(rt: &R, alloc: Global, row: &str) -> Result<String> {
    let (command, text) = first_word(row);
    let meetings = Meetings::new(alloc)?;
    let status = match command {
        "check" => call(rt, alloc, &["check", "program"], text, &meetings)?,
        "split" => call(
            rt,
            alloc,
            &["split", "program", "slave", "monitor"],
            text,
            &meetings,
        )?,
        "orig" => call(
            rt,
            alloc,
            &["orig", "program", "host", "input", "1000"],
            text,
            &meetings,
        )?,
        _ => bail!("no such command"),
    };
    let mut told = format!(in alloc; "watched {row} => status {status}, ")?;
    meetings.push_told(&mut told)?;
    Ok(told)
}

// The status of the call with these words over the program that a row spells, without hosts and input.
fn call<R: Threads + Sync>(
    rt: &R,
    alloc: Global,
    words: &[&str],
    row: &str,
    meetings: &Meetings,
) -> Result<u8> {
    let files = files_of(alloc, row)?;
    let mut outside = Outside::new(alloc, files, Vec::new(alloc), Failing::Nothing)?;
    let mut chooser = Alternate::new();
    Ok(outside.call(rt, alloc, words, &mut chooser, meetings))
}

// The program that a row spells, no host and no input.
fn files_of(alloc: Global, row: &str) -> Result<Vec<(String, Vec<u8>)>> {
    let text = spelled(alloc, row)?;
    let mut files = Vec::new(alloc);
    files.push(file_of(alloc, "program", text.as_str())?)?;
    files.push(file_of(alloc, "host", "{}")?)?;
    files.push(file_of(alloc, "input", "")?)?;
    Ok(files)
}
