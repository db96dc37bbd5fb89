// The flows of programs as pictures.
use crate::shown_lines::push_lines;
use anyhow::{Result, bail};
use case_rows::{Silent, spelled};
use flow_picture::{Pictured, picture};
use refusal_lines::{flow_lines, refusal_lines};
use stages::Stop;
use std::alloc::{AllocError, Global};
use std::thread::Threads;

/// The row and what its text comes to, line by line: the report behind `!`, the picture behind `|`.
///
/// # Errors
///
/// A row that spells no text, and want of memory.
pub fn pictured<R: Threads + Sync>(rt: &R, alloc: Global, row: &str) -> Result<String> {
    let text = spelled(alloc, row)?;
    let mut told = format!(in alloc; "picture {row} =>")?;
    match picture(rt, alloc, text.as_bytes(), &Silent) {
        Ok(pictured) => push_pictured(alloc, &mut told, &pictured)?,
        Err(Stop::Refused(refusal)) => {
            told.push_str(" refused")?;
            push_lines(&mut told, "  !", &refusal_lines(alloc, refusal)?)?;
        }
        Err(Stop::Memory) => bail!("out of memory"),
    }
    Ok(told)
}

// Appends the lines of the faults of flows, if there are any, and the picture.
fn push_pictured(alloc: Global, told: &mut String, pictured: &Pictured) -> Result<(), AllocError> {
    let faults = pictured.faults.as_slice();
    if faults.is_empty() {
        told.push_str(" drawn")?;
    } else {
        told.push_str(" faulty")?;
        push_lines(told, "  !", &flow_lines(alloc, faults)?)?;
    }
    push_lines(told, "  |", &pictured.picture)
}
