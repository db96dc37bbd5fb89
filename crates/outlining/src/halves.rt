// What is said of the two halves.
ghost use Rattle.std.specs.Prelude.{◌≡◌, ◌++◌, OnOk};
ghost use Rattle.pt_core.specs.CodeTree.{view_monitor, view_slave};
ghost use Rattle.typed_tree.specs.TypedView.{view_typed};
ghost use Rattle.outlining.specs.OutlineTexts as is;
ghost use Rattle.outlining.specs.StructCells.{is_marked_in};

use crate::entries::push_entries;
use crate::lines::{push_functions, push_globals, push_hosts};
use crate::struct_cells::{Cells, cells_of};
use pt_core::{MonitorProgram, SlaveProgram};
use std::alloc::{AllocError, Global};
use typed_tree::Typed;

// appends what the slave has
fn push_slave(t: &Typed, slave: &SlaveProgram, text: &mut Vec<u8>) -> Result<(), AllocError>
    ensures { OnOk result (text.new.items ≡ text.old.items ++ is.slave_part (view_typed t.now) (view_slave slave.now)) }
{
    text.extend_from_slice(b"slave\n")?;
    push_functions(t, slave.functions.as_slice(), text)?;
    push_globals(slave.globals.as_slice(), text)?;
    push_hosts(t, slave.hosts.as_slice(), text)?;
    Ok(())
}

// appends what the monitor has, by the cells of structs
fn push_monitor(
    t: &Typed,
    known: &[Cells],
    monitor: &MonitorProgram,
    text: &mut Vec<u8>,
) -> Result<(), AllocError>
    ensures { OnOk result (text.new.items ≡ text.old.items ++ is.monitor_part (is_marked_in known.now) (view_typed t.now) (view_monitor monitor.now)) }
{
    text.extend_from_slice(b"monitor\n")?;
    push_functions(t, monitor.functions.as_slice(), text)?;
    push_globals(monitor.globals.as_slice(), text)?;
    push_entries(t, known, monitor.entries.as_slice(), text)?;
    Ok(())
}

/// Appends what the two halves have.
pub(crate) fn push_halves(
    alloc: Global,
    t: &Typed,
    slave: &SlaveProgram,
    monitor: &MonitorProgram,
    text: &mut Vec<u8>,
) -> Result<(), AllocError>
    ensures { OnOk result (text.new.items ≡ text.old.items ++ is.halves_part (view_typed t.now) (view_slave slave.now) (view_monitor monitor.now)) }
{
    let structs = t.structs.as_slice();
    let known = cells_of(alloc, structs)?;
    let cells = known.as_slice();
    push_slave(t, slave, text)?;
    push_monitor(t, cells, monitor, text)?;
    Ok(())
}
