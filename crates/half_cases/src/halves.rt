// The two halves of a program, and the slave's boot.
use anyhow::{Result, bail};
use boot_rules::{BootError, read_boot};
use boots::boot_bytes;
use case_rows::{Silent, push_bytes, push_names, signature_of, spelled};
use flow_rules::Accepted;
use front_end::read_program;
use front_phase::lower_all;
use pt_base::{Bytes, FnId, Listed};
use pt_core::{Boot, CoreFn, GlobalVar, MonitorProgram, SlaveProgram};
use pt_tree::{HostModel, Rows, Signature};
use splitter::{make_boot, split};
use stages::judge;
use std::alloc::{AllocError, Global};
use std::thread::Threads;
use typed_tree::Typed;

/// The budget of turns of each boot.
const TURNS: u32 = 1000;

/// What each half of the row's program has, and the slave's boot as it is read again.
///
/// # Errors
///
/// A program with a fault, and want of memory.
pub fn halves<R: Threads + Sync>(rt: &R, alloc: Global, row: &str) -> Result<String> {
    let program = program_of(alloc, row)?;
    let accepted = accepted_of(rt, alloc, &program)?;
    let mut told = format!(in alloc; "halves {row}")?;
    push_halves(rt, alloc, &mut told, &program, &accepted)?;
    Ok(told)
}

// The program that a row spells.
fn program_of(alloc: Global, row: &str) -> Result<Typed> {
    let text = spelled(alloc, row)?;
    match read_program(alloc, text.as_bytes()) {
        Ok(program) => Ok(program),
        Err(_) => bail!("the program has a fault"),
    }
}

// The privileged slots and the halves of a program that breaks no rule.
fn accepted_of<R: Threads + Sync>(rt: &R, alloc: Global, program: &Typed) -> Result<Accepted> {
    match judge(rt, alloc, program, &Silent) {
        Ok(accepted) => Ok(accepted),
        Err(_) => bail!("the program breaks a rule"),
    }
}

// Appends both halves and the slave's boot.
fn push_halves<R: Threads + Sync>(
    rt: &R,
    alloc: Global,
    told: &mut String,
    program: &Typed,
    accepted: &Accepted,
) -> Result<()> {
    let code = lower_all(rt, alloc, program, &Silent)?;
    let (slave, monitor) = split(alloc, program, accepted, code)?;
    push_slave(alloc, told, &slave)?;
    push_monitor(alloc, told, &monitor)?;
    push_booted(alloc, told, slave)
}

// Appends what the bytes of the slave's boot spell.
fn push_booted(alloc: Global, told: &mut String, slave: SlaveProgram) -> Result<()> {
    let hosts = models(alloc, &slave)?;
    let boot = make_boot(slave, hosts, Bytes::new(Vec::new(alloc)), TURNS);
    let bytes = boot_bytes(alloc, &boot)?;
    told.push_str("\n  boot: ")?;
    push_read(alloc, told, &bytes)
}

// Appends what bytes spell as a boot.
fn push_read(alloc: Global, told: &mut String, bytes: &[u8]) -> Result<()> {
    match read_boot(alloc, bytes) {
        Ok(boot) => Ok(push_boot(alloc, told, &boot)?),
        Err(BootError::BadBoot) => Ok(told.push_str("bad boot")?),
        Err(BootError::Memory) => bail!("out of memory"),
    }
}

// A model for each of the slave's hosts: a line, or a table that gives 0.
fn models(alloc: Global, slave: &SlaveProgram) -> Result<Listed<(FnId, HostModel)>, AllocError> {
    let mut models = Vec::new(alloc);
    for host in slave.hosts.as_slice() {
        if let Some(signature) = signature_of(slave.signatures.as_slice(), *host) {
            models.push((*host, model(alloc, signature)?))?;
        }
    }
    Ok(Listed::new(models))
}

fn model(alloc: Global, signature: &Signature) -> Result<HostModel, AllocError> {
    if signature.result.is_none() {
        let name = Bytes::new(Vec::from_slice(alloc, signature.name.as_slice())?);
        return Ok(HostModel::Line { name });
    }
    Ok(HostModel::Table {
        rows: Rows::new(alloc, Vec::new(alloc))?,
        other: 0,
    })
}

fn push_boot(alloc: Global, told: &mut String, boot: &Boot) -> Result<(), AllocError> {
    push_functions(alloc, told, boot.signatures.as_slice(), &boot.functions)?;
    push_hosts(alloc, told, boot)?;
    write!(told, "; {} turns", boot.turns)
}

fn push_hosts(alloc: Global, told: &mut String, boot: &Boot) -> Result<(), AllocError> {
    told.push_str("; hosts ")?;
    let mut hosts = Vec::new(alloc);
    for host in boot.hosts.as_slice() {
        hosts.push(host.0)?;
    }
    push_names(told, boot.signatures.as_slice(), &hosts)
}

fn push_slave(alloc: Global, told: &mut String, slave: &SlaveProgram) -> Result<(), AllocError> {
    let signatures = slave.signatures.as_slice();
    told.push_str("\n  slave: ")?;
    push_functions(alloc, told, signatures, &slave.functions)?;
    push_globals(told, slave.globals.as_slice())?;
    told.push_str("; hosts ")?;
    push_names(told, signatures, slave.hosts.as_slice())?;
    push_known(alloc, told, signatures)
}

fn push_monitor(
    alloc: Global,
    told: &mut String,
    monitor: &MonitorProgram,
) -> Result<(), AllocError> {
    let signatures = monitor.signatures.as_slice();
    told.push_str("\n  monitor: ")?;
    push_functions(alloc, told, signatures, &monitor.functions)?;
    push_globals(told, monitor.globals.as_slice())?;
    push_entries(alloc, told, monitor)?;
    push_known(alloc, told, signatures)
}

fn push_entries(
    alloc: Global,
    told: &mut String,
    monitor: &MonitorProgram,
) -> Result<(), AllocError> {
    told.push_str("; entries ")?;
    let mut entries = Vec::new(alloc);
    for entry in monitor.entries.as_slice() {
        entries.push(entry.function)?;
    }
    push_names(told, monitor.signatures.as_slice(), &entries)
}

fn push_functions(
    alloc: Global,
    told: &mut String,
    signatures: &[(FnId, Signature)],
    functions: &[CoreFn],
) -> Result<(), AllocError> {
    let mut numbers = Vec::new(alloc);
    for function in functions {
        numbers.push(function.id)?;
    }
    push_names(told, signatures, &numbers)
}

fn push_globals(told: &mut String, globals: &[GlobalVar]) -> Result<(), AllocError> {
    told.push_str("; globals ")?;
    if globals.is_empty() {
        return told.push_str("none");
    }
    let mut before = "";
    for global in globals {
        told.push_str(before)?;
        push_bytes(told, global.var.name.as_slice())?;
        before = ", ";
    }
    Ok(())
}

// Appends what a half's code may call, by its signatures.
fn push_known(
    alloc: Global,
    told: &mut String,
    signatures: &[(FnId, Signature)],
) -> Result<(), AllocError> {
    told.push_str("; signatures ")?;
    let mut numbers = Vec::new(alloc);
    for entry in signatures {
        numbers.push(entry.0)?;
    }
    push_names(told, signatures, &numbers)
}
