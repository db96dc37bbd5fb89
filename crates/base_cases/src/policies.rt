// Policies as texts, and their verdicts.
use anyhow::{Context, Result, bail};
use case_rows::{push_bytes, spelled};
use policy::{Policy, PolicyError, Verdict, read_policy};
use pt_base::FnId;
use std::alloc::Global;
use typed_tree::Typed;

/// Reads the policy of a row's text, which is then the policy: the state where it starts, or its fault.
///
/// # Errors
///
/// A row that spells no text, and want of memory.
pub fn read_text(
    alloc: Global,
    program: &Typed,
    policy: &mut Option<Policy>,
    row: &str,
) -> Result<String> {
    let text = spelled(alloc, row)?;
    let mut told = String::new(alloc);
    match read_policy(alloc, text.as_bytes(), program) {
        Ok(read) => {
            told.push_str("state ")?;
            push_bytes(&mut told, read.state())?;
            *policy = Some(read);
        }
        Err(PolicyError::Fault(fault)) => {
            let line = fault.report_line(alloc)?;
            push_bytes(&mut told, line.as_slice())?;
        }
        Err(PolicyError::Memory) => bail!("out of memory"),
    }
    Ok(told)
}

/// The verdict on a call, `F N ..`, and the state then.
///
/// # Errors
///
/// No such function, numbers that are none, and want of memory.
pub fn decided(alloc: Global, program: &Typed, policy: &mut Policy, row: &str) -> Result<String> {
    let (f, numbers) = call_of(alloc, program, row)?;
    let mut told = String::new(alloc);
    match policy.decide(f, &numbers) {
        Verdict::Allow(rule) => write!(told, "allowed by rule {rule}")?,
        Verdict::Deny => told.push_str("denied")?,
    }
    told.push_str(", state ")?;
    push_bytes(&mut told, policy.state())?;
    Ok(told)
}

/// The function of the row and the numbers behind its name.
///
/// # Errors
///
/// No such function, numbers that are none, and want of memory.
pub fn call_of(alloc: Global, program: &Typed, row: &str) -> Result<(FnId, Vec<i128>)> {
    let mut words = row.split_whitespace();
    let name = words.next().context("no name")?;
    let f = program
        .function_of(name.as_bytes())
        .context("no such function")?;
    let mut numbers = Vec::new(alloc);
    for word in words {
        numbers.push(word.parse::<i128>()?)?;
    }
    Ok((f, numbers))
}
