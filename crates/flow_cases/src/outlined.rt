// The outlines of programs.
use crate::shown_lines::push_lines;
use anyhow::{Result, bail};
use case_rows::{Silent, spelled};
use outlining::outline;
use refusal_lines::refusal_lines;
use stages::Stop;
use std::alloc::Global;
use std::thread::Threads;

/// The row and what its text comes to, line by line: the report behind `!`, the outline behind `|`.
///
/// # Errors
///
/// A row that spells no text, and want of memory.
pub fn outlined<R: Threads + Sync>(rt: &R, alloc: Global, row: &str) -> Result<String> {
    let text = spelled(alloc, row)?;
    let mut told = format!(in alloc; "outline {row} =>")?;
    match outline(rt, alloc, text.as_bytes(), &Silent) {
        Ok(lines) => {
            told.push_str(" written")?;
            push_lines(&mut told, "  |", &lines)?;
        }
        Err(Stop::Refused(refusal)) => {
            told.push_str(" refused")?;
            push_lines(&mut told, "  !", &refusal_lines(alloc, refusal)?)?;
        }
        Err(Stop::Memory) => bail!("out of memory"),
    }
    Ok(told)
}
