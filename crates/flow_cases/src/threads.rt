// The work on functions, in threads: what comes of it, and whether two threads were at work at once.
use anyhow::{Result, bail};
use case_rows::{Meetings, spelled};
use front_end::read_program;
use front_phase::{edges_all, lower_all};
use pt_base::Edge;
use pt_core::CoreFn;
use sides::place;
use std::alloc::{AllocError, Global};
use std::thread::Threads;
use typed_tree::Typed;
use usages::usages_of;

/// More edges than these are told by their number.
const FEW: usize = 8;

/// The functions of a program that were lowered, and its edges, each with how the threads worked.
///
/// # Errors
///
/// A row that spells no program without faults, and want of memory.
pub fn at_once<R: Threads + Sync>(rt: &R, alloc: Global, row: &str) -> Result<String> {
    let program = program_of(alloc, row)?;
    let mut told = format!(in alloc; "threads {row} =>")?;
    push_lowered(rt, alloc, &mut told, &program)?;
    push_moves(rt, alloc, &mut told, &program)?;
    Ok(told)
}

// The program that a row spells.
fn program_of(alloc: Global, row: &str) -> Result<Typed> {
    let text = spelled(alloc, row)?;
    match read_program(alloc, text.as_bytes()) {
        Ok(program) => Ok(program),
        Err(_) => bail!("the program has a fault"),
    }
}

// Appends which functions were lowered.
fn push_lowered<R: Threads + Sync>(
    rt: &R,
    alloc: Global,
    told: &mut String,
    program: &Typed,
) -> Result<(), AllocError> {
    let meetings = Meetings::new(alloc)?;
    let code = lower_all(rt, alloc, program, &meetings)?;
    push_functions(told, &code)?;
    write!(told, " {}", meetings.told())
}

// Appends the edges along which values move.
fn push_moves<R: Threads + Sync>(
    rt: &R,
    alloc: Global,
    told: &mut String,
    program: &Typed,
) -> Result<(), AllocError> {
    let meetings = Meetings::new(alloc)?;
    let usages = usages_of(alloc, program)?;
    let sides = place(alloc, program, &usages)?;
    let edges = edges_all(rt, alloc, program, &usages, &sides, &meetings)?;
    told.push_str(", edges")?;
    push_edges(told, edges.as_slice())?;
    write!(told, " {}", meetings.told())
}

fn push_functions(told: &mut String, code: &[CoreFn]) -> Result<(), AllocError> {
    told.push_str(" code of")?;
    for function in code {
        write!(told, " {}", function.id.0)?;
    }
    Ok(())
}

fn push_edges(told: &mut String, edges: &[Edge]) -> Result<(), AllocError> {
    if edges.len() > FEW {
        return write!(told, " {}", edges.len());
    }
    for edge in edges {
        write!(told, " {}>{}", edge.from.0, edge.to.0)?;
    }
    Ok(())
}
