// The faults of the front end, as marks and as lines.
use crate::marks::Mark;
use anyhow::{Result, bail};
use front_end::FrontError;
use pt_base::Span;
use std::alloc::{AllocError, Global};

/// The faults as marks in the text.
///
/// # Errors
///
/// Want of memory, here or there.
pub fn fault_marks(alloc: Global, error: FrontError) -> Result<Vec<Mark>> {
    let mut marks = Vec::new(alloc);
    match error {
        FrontError::Lex(fault) => {
            let (number, name) = (fault.kind.number(), fault.kind.name());
            marks.push(point(fault.at, format!(in alloc; "lex {number} {name}")?))?;
        }
        FrontError::Parse(fault) => {
            let (number, name) = (fault.kind.number(), fault.kind.name());
            marks.push(point(fault.at, format!(in alloc; "parse {number} {name}")?))?;
        }
        FrontError::Types(faults) => {
            for fault in &faults {
                let (number, name) = (fault.kind.number(), fault.kind.name());
                marks.push(Mark {
                    span: fault.span,
                    name: format!(in alloc; "{number} {name}")?,
                })?;
            }
        }
        FrontError::Memory => bail!("out of memory"),
    }
    Ok(marks)
}

// A mark at a place.
fn point(at: u32, name: String) -> Mark {
    Mark {
        span: Span { from: at, to: at },
        name,
    }
}

/// The faults with their places, one behind the other; `ok` where there are none.
///
/// # Errors
///
/// Want of memory.
pub fn fault_line(alloc: Global, marks: &[Mark]) -> Result<String, AllocError> {
    if marks.is_empty() {
        return String::from_str(alloc, "ok");
    }
    let mut text = String::new(alloc);
    for mark in marks {
        if !text.is_empty() {
            text.push_str("; ")?;
        }
        let Span { from, to } = mark.span;
        write!(text, "{} at {from}..{to}", mark.name)?;
    }
    Ok(text)
}
