// The globals of each half.
ghost use Rattle.std.specs.Prelude.{◌≡◌, ◌++◌, false, not, IfOk, OnOk, map, replicate};
ghost use Rattle.reach.specs.Tables.{item_if, set_all};
ghost use Rattle.typed_tree.specs.TypedView.{view_typed};
ghost use Rattle.pt_core.specs.CodeTree.{view_global};
ghost use Rattle.splitter.specs.Halves.{chosen_globals};
ghost use Rattle.splitter.specs.Sets.{global_numbers, is_set, numbered_global};

use crate::number_set::NumberSet;
use pt_base::{GlobalId, Listed, next_number};
use pt_core::GlobalVar;
use std::alloc::{AllocError, Global};
use typed_tree::{Typed, TypedGlobal};

/// The numbers of these globals, among those below this one.
pub(crate) fn globals_set(
    alloc: Global,
    globals: &[GlobalId],
    bound: usize,
) -> Result<NumberSet, AllocError>
    ensures { IfOk result (λ s. s ≡ set_all (replicate bound false) (global_numbers globals.now)) }
{
    let mut set = NumberSet::none(alloc, bound)?;
    for global in globals {
        set.add(global.0);
    }
    Ok(set)
}

// a global with the values that it starts with
fn global_of(alloc: Global, number: u32, global: &TypedGlobal) -> Result<GlobalVar, AllocError>
    ensures { IfOk result (λ g. view_global g ≡ numbered_global number global.now) }
{
    Ok(GlobalVar {
        id: GlobalId(number),
        var: global.var.copy(alloc)?,
        cells: Listed::new(Vec::from_slice(alloc, global.cells.as_slice())?),
    })
}

// adds a global to the half that owns it
fn add_global(
    global: GlobalVar,
    owned: bool,
    slave: &mut Vec<GlobalVar>,
    monitor: &mut Vec<GlobalVar>,
) -> Result<(), AllocError>
    ensures slave { OnOk result (map view_global slave.new.items ≡ map view_global slave.old.items ++ item_if owned (view_global global)) }
    ensures monitor { OnOk result (map view_global monitor.new.items ≡ map view_global monitor.old.items ++ item_if (not owned) (view_global global)) }
{
    if owned {
        slave.push(global)?;
    } else {
        monitor.push(global)?;
    }
    Ok(())
}

/// The globals of the set, which the slave owns, and the others, which are the monitor's.
pub(crate) fn share_globals(
    alloc: Global,
    t: &Typed,
    owned: &NumberSet,
) -> Result<(Listed<GlobalVar>, Listed<GlobalVar>), AllocError>
    ensures slave { IfOk result (λ r. map view_global r.0 ≡ chosen_globals (is_set owned.now) (view_typed t.now)) }
    ensures monitor { IfOk result (λ r. map view_global r.1 ≡ chosen_globals (λ n. not (is_set owned.now n)) (view_typed t.now)) }
{
    let mut slave = Vec::new(alloc);
    let mut monitor = Vec::new(alloc);
    let mut number: u32 = 0;
    let globals = t.globals.as_slice();
    for global in globals {
        let made = global_of(alloc, number, global)?;
        add_global(made, owned.has(number), &mut slave, &mut monitor)?;
        number = next_number(number)?;
    }
    Ok((Listed::new(slave), Listed::new(monitor)))
}
