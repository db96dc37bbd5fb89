// Programs as texts: each comes out with its faults marked.
use crate::faults::{fault_line, fault_marks};
use crate::marks::{Mark, marked};
use anyhow::Result;
use case_rows::{repeats, spelled};
use front_end::read_program;
use pt_base::Span;
use std::alloc::Global;

/// What stands before and behind the text of a row.
#[derive(Clone, Copy)]
pub struct Around<'a> {
    pub before: &'a str,
    pub after: &'a str,
}

/// The text of the row with the faults of the whole, marked where they stand. Where the text is too
/// long to be shown, or a fault stands outside of it, the faults follow the row in a list.
///
/// # Errors
///
/// A row that spells no text, and want of memory.
pub fn judged(alloc: Global, row: &str, around: Around<'_>) -> Result<String> {
    let text = spelled(alloc, row)?;
    let Around { before, after } = around;
    let whole = format!(in alloc; "{before}{text}{after}")?;
    let marks = match read_program(alloc, whole.as_bytes()) {
        Ok(_) => Vec::new(alloc),
        Err(error) => fault_marks(alloc, error)?,
    };
    if !repeats(row)
        && let Some(inner) = moved(alloc, &marks, before.len(), text.len())?
    {
        return Ok(marked(alloc, text.as_bytes(), inner)?);
    }
    let faults = fault_line(alloc, &marks)?;
    Ok(format!(in alloc; "{row} => {faults}")?)
}

// The marks by their places in the row, which is so long; None where one stands outside.
fn moved(alloc: Global, marks: &[Mark], before: usize, size: usize) -> Result<Option<Vec<Mark>>> {
    let mut inner = Vec::new(alloc);
    for mark in marks {
        let (Some(from), Some(to)) = (
            (mark.span.from as usize).checked_sub(before),
            (mark.span.to as usize).checked_sub(before),
        ) else {
            return Ok(None);
        };
        if to > size {
            return Ok(None);
        }
        inner.push(Mark {
            span: Span {
                from: u32::try_from(from)?,
                to: u32::try_from(to)?,
            },
            name: String::from_str(alloc, mark.name.as_str())?,
        })?;
    }
    Ok(Some(inner))
}
