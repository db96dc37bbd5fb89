// Bytes as boots.
use anyhow::{Result, bail};
use boot_rules::{BootError, read_boot};
use case_rows::{bytes_of, push_names};
use pt_core::Boot;
use std::alloc::{AllocError, Global};

/// What the row's bytes spell as a boot.
///
/// # Errors
///
/// A row that isn't hexadecimal, and want of memory.
pub fn boot(alloc: Global, row: &str) -> Result<String> {
    let bytes = bytes_of(alloc, row)?;
    match read_boot(alloc, &bytes) {
        Ok(boot) => Ok(told(alloc, &boot)?),
        Err(BootError::BadBoot) => Ok(String::from_str(alloc, "  bad boot")?),
        Err(BootError::Memory) => bail!("out of memory"),
    }
}

// The functions and hosts of a boot, and its turns.
fn told(alloc: Global, boot: &Boot) -> Result<String, AllocError> {
    let mut told = String::from_str(alloc, "  ")?;
    push_functions(alloc, &mut told, boot)?;
    told.push_str("; hosts ")?;
    push_hosts(alloc, &mut told, boot)?;
    write!(told, "; {} turns", boot.turns)?;
    Ok(told)
}

fn push_functions(alloc: Global, told: &mut String, boot: &Boot) -> Result<(), AllocError> {
    let mut numbers = Vec::new(alloc);
    for function in &boot.functions {
        numbers.push(function.id)?;
    }
    push_names(told, boot.signatures.as_slice(), &numbers)
}

fn push_hosts(alloc: Global, told: &mut String, boot: &Boot) -> Result<(), AllocError> {
    let mut numbers = Vec::new(alloc);
    for host in boot.hosts.as_slice() {
        numbers.push(host.0)?;
    }
    push_names(told, boot.signatures.as_slice(), &numbers)
}
