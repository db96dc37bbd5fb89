// Where the nodes of each kind begin.
ghost use Rattle.std.specs.Prelude.{◌≡◌, IfOk, map};
ghost use Rattle.pt_core.specs.CodeTree.{numbered, view_function, view_monitor};
ghost use Rattle.monitor_labels.specs.Counting.{AreNumbers, ArePlaces};
ghost use Rattle.monitor_labels.specs.Nodes as is;

use pt_base::{FnId, sum};
use pt_core::{CoreFn, MonitorProgram};
use pt_tree::Signature;
use std::alloc::{AllocError, Global};

/// Runs of numbers, one behind the other.
#[derive(Drop)]
pub(crate) struct Numbers {
    /// The first number of each run, also where it has none.
    pub starts: Vec<u64>,
    /// The number behind the last run.
    pub end: u64,
}

/// Where the nodes of each kind begin: variables, function by function; results, signature by
/// signature; globals; and whether statements are done, function by function.
#[derive(Drop)]
pub(crate) struct Places {
    pub variables: Numbers,
    pub results: Numbers,
    pub globals: u64,
    pub controls: u64,
    pub count: u64,
}

/// Whether it gives a result that has a node.
pub(crate) fn gives_result(signature: &Signature) -> bool
    ensures { result ≡ is.gives_result signature.now }
{
    signature.result.is_some() && (!signature.host || signature.privileged)
}

/// How many nodes its result has: one or none.
pub(crate) fn result_count(entry: &(FnId, Signature)) -> u64
    ensures { result ≡ is.result_one (entry.now.0.0, entry.now.1) }
{
    if gives_result(&entry.1) { 1 } else { 0 }
}

// the numbers of the variables of each function
fn variable_numbers(alloc: Global, functions: &[CoreFn]) -> Result<Numbers, AllocError>
    ensures { IfOk result (λ n. AreNumbers is.own_count 0 (map view_function functions.now) n) }
{
    let mut starts = Vec::with_capacity(alloc, functions.len())?;
    let mut end: u64 = 0;
    for function in functions {
        starts.push(end)?;
        end = sum(end, function.vars.as_slice().len() as u64)?;
    }
    Ok(Numbers { starts, end })
}

// the numbers of the results, from this one on
fn result_numbers(
    alloc: Global,
    signatures: &[(FnId, Signature)],
    from: u64,
) -> Result<Numbers, AllocError>
    ensures { IfOk result (λ n. AreNumbers is.result_one from (numbered signatures.now) n) }
{
    let mut starts = Vec::with_capacity(alloc, signatures.len())?;
    let mut end = from;
    for entry in signatures {
        starts.push(end)?;
        end = sum(end, result_count(entry))?;
    }
    Ok(Numbers { starts, end })
}

/// Where the nodes of a program begin.
pub(crate) fn places_of(alloc: Global, p: &MonitorProgram) -> Result<Places, AllocError>
    ensures { IfOk result (λ places. ArePlaces (view_monitor p.now) places) }
{
    let variables = variable_numbers(alloc, &p.functions)?;
    let results = result_numbers(alloc, p.signatures.as_slice(), variables.end)?;
    let globals = results.end;
    let controls = sum(globals, p.globals.as_slice().len() as u64)?;
    let count = sum(controls, p.functions.len() as u64)?;
    Ok(Places {
        variables,
        results,
        globals,
        controls,
        count,
    })
}
