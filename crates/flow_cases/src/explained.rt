// What is explained of texts.
ghost use Rattle.stages.specs.Seen.{view_refusal};
ghost use Rattle.pair_explaining.specs.RefusalBlocks.{IsTold};

use crate::shown_lines::push_lines;
use anyhow::{Result, bail};
use case_rows::{Silent, TextFiles, first_word, spelled};
use explaining::explain;
use pair_explaining::{FileNames, explain_pair, explain_refusal};
use stages::{GivenTexts, Refusal, Stop};
use std::alloc::{AllocError, Global};
use std::thread::Threads;

/// The row `NAME TEXT` with what is explained of the text in a file of that name, line by line.
///
/// # Errors
///
/// A row that spells no text, and want of memory.
pub fn explained<R: Threads + Sync>(rt: &R, alloc: Global, row: &str) -> Result<String> {
    let (name, rest) = first_word(row);
    let text = spelled(alloc, rest)?;
    let names = FileNames {
        program: name.as_bytes(),
        host: &[],
        policy: &[],
    };
    let given = GivenTexts {
        program: text.as_bytes(),
        host: &[],
        policy: &[],
    };
    let mut told = format!(in alloc; "explain {row} =>")?;
    push_explained(rt, alloc, &mut told, names, given)?;
    Ok(told)
}

/// The row `PROG HOST POLICY` with what is explained of the files of these names, line by line.
///
/// # Errors
///
/// A name of no file, and want of memory.
pub fn pair_explained<R: Threads + Sync>(
    rt: &R,
    alloc: Global,
    files: &TextFiles,
    row: &str,
) -> Result<String> {
    let (program, rest) = first_word(row);
    let (host, policy) = first_word(rest);
    let names = FileNames {
        program: program.as_bytes(),
        host: host.as_bytes(),
        policy: policy.as_bytes(),
    };
    let given = GivenTexts {
        program: files.text(program)?,
        host: files.text(host)?,
        policy: files.text(policy)?,
    };
    let mut told = format!(in alloc; "explain_pair {row} =>")?;
    push_pair_explained(rt, alloc, &mut told, names, given)?;
    Ok(told)
}

// Appends what is explained of a program alone.
fn push_explained<R: Threads + Sync>(
    rt: &R,
    alloc: Global,
    told: &mut String,
    names: FileNames<'_>,
    given: GivenTexts<'_>,
) -> Result<()> {
    match explain(rt, alloc, names.program, given.program, &Silent) {
        Ok(lines) => Ok(push_accepted(told, &lines)?),
        Err(Stop::Refused(refusal)) => Ok(push_refused(alloc, told, names, given, &refusal)?),
        Err(Stop::Memory) => bail!("out of memory"),
    }
}

// Appends what is explained of a program with its host table and its policy.
fn push_pair_explained<R: Threads + Sync>(
    rt: &R,
    alloc: Global,
    told: &mut String,
    names: FileNames<'_>,
    given: GivenTexts<'_>,
) -> Result<()> {
    match explain_pair(rt, alloc, names.program, given, &Silent) {
        Ok(lines) => Ok(push_accepted(told, &lines)?),
        Err(Stop::Refused(refusal)) => Ok(push_refused(alloc, told, names, given, &refusal)?),
        Err(Stop::Memory) => bail!("out of memory"),
    }
}

// Appends the lines of what is accepted.
fn push_accepted(told: &mut String, lines: &[u8]) -> Result<(), AllocError> {
    told.push_str(" accepted")?;
    push_lines(told, "  |", lines)
}

// Appends the blocks that explain a refusal.
fn push_refused(
    alloc: Global,
    told: &mut String,
    names: FileNames<'_>,
    given: GivenTexts<'_>,
    refusal: &Refusal,
) -> Result<(), AllocError>
    requires { IsTold (view_refusal refusal.now) }
{
    let blocks = explain_refusal(alloc, names, given, refusal)?;
    told.push_str(" refused")?;
    push_lines(told, "  |", &blocks)
}
