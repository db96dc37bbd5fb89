// The two halves of a program.
ghost use Rattle.std.specs.Prelude.{◌≡◌, IfOk, map};
ghost use Rattle.typed_tree.specs.TypedView.{view_typed};
ghost use Rattle.pt_core.specs.CodeTree.{view_function, view_global, view_monitor, view_slave};
ghost use Rattle.splitter.specs.Halves.{IsWholeCode, halves_of, monitor_of, slave_of};
ghost use Rattle.splitter.specs.Sets.{function_numbers, monitor_with, slave_with};

use crate::calls::called_by;
use crate::functions::{add_functions, functions_set, share_out};
use crate::globals::{globals_set, share_globals};
use crate::hosts::{add_entries, entries_of, slave_hosts};
use crate::number_set::NumberSet;
use crate::signatures::signatures_in;
use crate::structs::structs_of;
use flow_rules::Accepted;
use pt_base::{FnId, Listed};
use pt_core::{CoreFn, Entry, GlobalVar, MonitorProgram, SlaveProgram};
use std::alloc::{AllocError, Global};
use typed_tree::Typed;

// the slave's program, which has these functions and globals; the set has what the functions call
fn slave_program(
    alloc: Global,
    t: &Typed,
    slave: &[FnId],
    functions: Vec<CoreFn>,
    globals: Listed<GlobalVar>,
    called: NumberSet,
) -> Result<SlaveProgram, AllocError>
    ensures { IfOk result (λ p. view_slave p ≡ slave_with (view_typed t.now) called (function_numbers slave.now) (map view_function functions.items) (map view_global globals)) }
{
    let hosts = slave_hosts(alloc, t, &called)?;
    let mut needed = called;
    add_functions(slave, &mut needed);
    Ok(SlaveProgram {
        structs: structs_of(alloc, t)?,
        signatures: signatures_in(alloc, t, &needed)?,
        functions,
        globals,
        hosts,
    })
}

// the monitor's program, which has these functions, globals and entries; the set has what the functions
// call
fn monitor_program(
    alloc: Global,
    t: &Typed,
    monitor: &[FnId],
    functions: Vec<CoreFn>,
    globals: Listed<GlobalVar>,
    entries: Listed<Entry>,
    called: NumberSet,
) -> Result<MonitorProgram, AllocError>
    ensures { IfOk result (λ p. view_monitor p ≡ monitor_with (view_typed t.now) called (function_numbers monitor.now) (map view_function functions.items) (map view_global globals) entries) }
{
    let mut needed = called;
    add_functions(monitor, &mut needed);
    add_entries(entries.as_slice(), &mut needed);
    Ok(MonitorProgram {
        structs: structs_of(alloc, t)?,
        signatures: signatures_in(alloc, t, &needed)?,
        functions,
        globals,
        entries,
    })
}

/// The two programs into which a program is split that breaks no rule: the slave's and the monitor's.
/// `code` has the functions of the program that have bodies, in the normal form; those that are in both
/// halves are copied. Time and memory are linear in the code and in the lists of the program.
///
/// # Errors
///
/// Want of memory.
pub fn split(
    alloc: Global,
    t: &Typed,
    a: &Accepted,
    code: Vec<CoreFn>,
) -> Result<(SlaveProgram, MonitorProgram), AllocError>
    requires { IsWholeCode (view_typed t.now) (map view_function code.items) }
    ensures slave { IfOk result (λ r. view_slave r.0 ≡ slave_of (view_typed t.now) (halves_of a.now.sides) (map view_function code.items)) }
    ensures monitor { IfOk result (λ r. view_monitor r.1 ≡ monitor_of (view_typed t.now) (halves_of a.now.sides) (map view_function code.items)) }
{
    let sides = &a.sides;
    let bound = t.functions.len();
    let in_slave = functions_set(alloc, sides.slave.as_slice(), bound)?;
    let in_monitor = functions_set(alloc, sides.monitor.as_slice(), bound)?;
    let owned = globals_set(alloc, sides.owned.as_slice(), t.globals.as_slice().len())?;
    let (slave_code, monitor_code) = share_out(alloc, code, &in_slave, &in_monitor)?;
    let (slave_globals, monitor_globals) = share_globals(alloc, t, &owned)?;
    let asked = called_by(alloc, &slave_code, bound)?;
    let called = called_by(alloc, &monitor_code, bound)?;
    let entries = entries_of(alloc, t, &asked)?;
    let slave = slave_program(
        alloc,
        t,
        sides.slave.as_slice(),
        slave_code,
        slave_globals,
        asked,
    )?;
    let monitor = monitor_program(
        alloc,
        t,
        sides.monitor.as_slice(),
        monitor_code,
        monitor_globals,
        entries,
        called,
    )?;
    Ok((slave, monitor))
}
