// Host tables, and calls of hosts.
use crate::policies::call_of;
use anyhow::{Context, Result, bail};
use case_rows::{bytes_of, push_bytes, spelled};
use host_models::fits;
use host_table::{Host, HostError, read_host};
use pt_base::FnId;
use std::alloc::{AllocError, Global};
use typed_tree::Typed;

/// Reads the host table of a row's text, whose hosts are then the hosts: which functions have a model,
/// or the table's faults.
///
/// # Errors
///
/// A row that spells no text, and want of memory.
pub fn read_table(
    alloc: Global,
    program: &Typed,
    host: &mut Option<Host>,
    row: &str,
) -> Result<String> {
    let text = spelled(alloc, row)?;
    match read_host(alloc, text.as_bytes(), program) {
        Ok(read) => {
            let told = models(alloc, program, &read)?;
            *host = Some(read);
            Ok(told)
        }
        Err(HostError::Faults(faults)) => {
            let mut told = String::new(alloc);
            for fault in faults.as_slice() {
                if !told.is_empty() {
                    told.push_str("; ")?;
                }
                let line = fault.report_line(alloc, program)?;
                push_bytes(&mut told, line.as_slice())?;
            }
            Ok(told)
        }
        Err(HostError::Memory) => bail!("out of memory"),
    }
}

// The names of the functions that have a model, with whether it fits.
fn models(alloc: Global, program: &Typed, host: &Host) -> Result<String, AllocError> {
    let mut told = String::from_str(alloc, "models of")?;
    for (number, function) in program.functions.iter().enumerate() {
        if let Ok(number) = u32::try_from(number)
            && let Some(model) = host.model(FnId(number))
        {
            told.push(' ')?;
            push_bytes(&mut told, function.signature.name.as_slice())?;
            if !fits(model, &function.signature) {
                told.push_str(", which doesn't fit")?;
            }
        }
    }
    Ok(told)
}

/// Gives the hosts the input of a row, in hexadecimal.
///
/// # Errors
///
/// A row that isn't hexadecimal, and want of memory.
pub fn given(alloc: Global, host: &mut Host, row: &str) -> Result<String> {
    let input = bytes_of(alloc, row)?;
    host.give(alloc, &input)?;
    Ok(format!(in alloc; "{} given", input.len())?)
}

/// The result of a call, `F N ..`, and what it writes.
///
/// # Errors
///
/// A function without a model, numbers that are none, and want of memory.
pub fn called(alloc: Global, program: &Typed, host: &mut Host, row: &str) -> Result<String> {
    let (f, numbers) = call_of(alloc, program, row)?;
    if host.model(f).is_none() {
        bail!("no model");
    }
    let mut out = Vec::new(alloc);
    let result = host.call(f, &numbers, &mut out)?;
    let mut told = String::new(alloc);
    match result {
        Some(number) => write!(told, "{number}")?,
        None => told.push_str("no result")?,
    }
    if !out.is_empty() {
        told.push_str(", writes")?;
        for byte in &out {
            write!(told, " {byte:02x}")?;
        }
    }
    Ok(told)
}

/// The models of the hosts that a row lists.
///
/// # Errors
///
/// No such function, and want of memory.
pub fn parted(alloc: Global, program: &Typed, host: &Host, row: &str) -> Result<String> {
    let mut listed = Vec::new(alloc);
    for word in row.split_whitespace() {
        let f = program.function_of(word.as_bytes());
        listed.push(f.context("no such function")?)?;
    }
    let part = host.part(alloc, &listed)?;
    Ok(models(alloc, program, &part)?)
}
