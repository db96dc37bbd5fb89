// The audits of programs.
use crate::shown_lines::push_lines;
use anyhow::{Result, bail};
use auditing::audit;
use case_rows::{Meetings, Silent, spelled};
use refusal_lines::refusal_lines;
use stages::Stop;
use std::alloc::Global;
use std::thread::Threads;

/// The row and what its text comes to, line by line: the report behind `!`, the audit behind `|`.
///
/// # Errors
///
/// A row that spells no text, and want of memory.
pub fn audited<R: Threads + Sync>(rt: &R, alloc: Global, row: &str) -> Result<String> {
    let text = spelled(alloc, row)?;
    let mut told = format!(in alloc; "audit {row} =>")?;
    match audit(rt, alloc, text.as_bytes(), &Silent) {
        Ok(lines) => {
            told.push_str(" written")?;
            push_lines(&mut told, "  |", &lines)?;
        }
        Err(Stop::Refused(refusal)) => {
            told.push_str(" refused")?;
            push_lines(&mut told, "  !", &refusal_lines(alloc, refusal)?)?;
        }
        Err(Stop::Memory) => bail!("out of memory"),
    }
    Ok(told)
}

/// The row, how the threads worked on the functions of its program, and the audit behind `|`.
///
/// # Errors
///
/// A row that spells no program, one that breaks a rule, and want of memory.
pub fn audited_at_once<R: Threads + Sync>(rt: &R, alloc: Global, row: &str) -> Result<String> {
    let text = spelled(alloc, row)?;
    let mut told = format!(in alloc; "audit_threads {row} => ")?;
    let meetings = Meetings::new(alloc)?;
    match audit(rt, alloc, text.as_bytes(), &meetings) {
        Ok(lines) => {
            meetings.push_told(&mut told)?;
            push_lines(&mut told, "  |", &lines)?;
        }
        Err(_) => bail!("no audit"),
    }
    Ok(told)
}
