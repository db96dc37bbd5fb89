// Where secrets begin, by the numbers of nodes.
ghost use Rattle.std.specs.Prelude.{◌≡◌, ◌++◌, ◌&&◌, IfOk, OnOk, map};
ghost use Rattle.pt_core.specs.CodeTree.{numbered, view_function, view_global, view_monitor};
ghost use Rattle.monitor_labels.specs.Counting.{ArePlaces, function_slots, global_slots, result_slots, slot_if, slots_with};
ghost use Rattle.monitor_labels.specs.Searching.{IsOrdered};
ghost use Rattle.monitor_labels.specs.Nodes as nodes;
ghost use Rattle.monitor_labels.specs.Seeds as is;

use crate::marked::{begins_secret, marked_structs};
use crate::places::{Places, gives_result, result_count};
use pt_base::{FnId, Slot, sum};
use pt_core::{CoreFn, GlobalVar, MonitorProgram};
use pt_tree::Signature;
use std::alloc::{AllocError, Global};
use typed_tree::Var;

// adds the node of this number, if a secret begins there
fn add_if(secret: bool, number: u64, seeds: &mut Vec<Slot>) -> Result<(), AllocError>
    ensures { OnOk result (seeds.new.items ≡ seeds.old.items ++ slot_if secret number) }
{
    if secret {
        seeds.push(Slot(number))?;
    }
    Ok(())
}

// those of variables, of which the first has the node of this number
fn add_variables(
    known: &[bool],
    vars: &[Var],
    from: u64,
    seeds: &mut Vec<Slot>,
) -> Result<(), AllocError>
    ensures { OnOk result (seeds.new.items ≡ seeds.old.items ++ slots_with (is.begins_secret known.now) from vars.now) }
{
    let mut number = from;
    for var in vars {
        add_if(begins_secret(known, var), number, seeds)?;
        number = sum(number, 1)?;
    }
    Ok(())
}

// those of the variables of all functions
fn add_functions(
    known: &[bool],
    functions: &[CoreFn],
    seeds: &mut Vec<Slot>,
) -> Result<(), AllocError>
    ensures { OnOk result (seeds.new.items ≡ seeds.old.items ++ function_slots known.now 0 (map view_function functions.now)) }
{
    let mut number: u64 = 0;
    for function in functions {
        let vars = function.vars.as_slice();
        add_variables(known, vars, number, seeds)?;
        number = sum(number, vars.len() as u64)?;
    }
    Ok(())
}

// whether it is a privileged host that gives a result
fn gives_secret(signature: &Signature) -> bool
    ensures { result ≡ (signature.now.host && nodes.gives_result signature.now) }
{
    signature.host && gives_result(signature)
}

// those of results, the first of which has the node of this number
fn add_results(
    signatures: &[(FnId, Signature)],
    from: u64,
    seeds: &mut Vec<Slot>,
) -> Result<(), AllocError>
    ensures { OnOk result (seeds.new.items ≡ seeds.old.items ++ result_slots from (numbered signatures.now)) }
{
    let mut number = from;
    for entry in signatures {
        add_if(gives_secret(&entry.1), number, seeds)?;
        number = sum(number, result_count(entry))?;
    }
    Ok(())
}

// those of globals, the first of which has the node of this number
fn add_globals(
    known: &[bool],
    globals: &[GlobalVar],
    from: u64,
    seeds: &mut Vec<Slot>,
) -> Result<(), AllocError>
    ensures { OnOk result (seeds.new.items ≡ seeds.old.items ++ global_slots known.now from (map view_global globals.now)) }
{
    let mut number = from;
    for global in globals {
        add_if(begins_secret(known, &global.var), number, seeds)?;
        number = sum(number, 1)?;
    }
    Ok(())
}

/// Where secrets begin in a program whose nodes have these places.
pub(crate) fn seeds_of(
    alloc: Global,
    p: &MonitorProgram,
    places: &Places,
) -> Result<Vec<Slot>, AllocError>
    requires ordered { IsOrdered (view_monitor p.now) }
    requires places { ArePlaces (view_monitor p.now) places.now }
    ensures { IfOk result (λ seeds. seeds.items ≡ is.seeds_of (view_monitor p.now)) }
{
    let known = marked_structs(alloc, p.structs.as_slice())?;
    let mut seeds = Vec::new(alloc);
    add_functions(&known, &p.functions, &mut seeds)?;
    add_results(p.signatures.as_slice(), places.variables.end, &mut seeds)?;
    add_globals(&known, p.globals.as_slice(), places.globals, &mut seeds)?;
    Ok(seeds)
}
