// The functions of each half.
ghost use Rattle.std.specs.Prelude.{◌≡◌, ◌++◌, false, IfOk, OnOk, map, replicate};
ghost use Rattle.reach.specs.Tables.{item_if, set_all};
ghost use Rattle.pt_core.specs.CodeTree.{view_function};
ghost use Rattle.splitter.specs.Halves.{chosen_functions};
ghost use Rattle.splitter.specs.Sets.{function_numbers, is_set};

use crate::number_set::NumberSet;
use pt_base::FnId;
use pt_core::CoreFn;
use std::alloc::{AllocError, Global};

/// Adds functions to a set of numbers.
pub(crate) fn add_functions(functions: &[FnId], set: &mut NumberSet)
    ensures { set.new ≡ set_all set.old (function_numbers functions.now) }
{
    for f in functions {
        set.add(f.0);
    }
}

/// The numbers of these functions, among those below this one.
pub(crate) fn functions_set(
    alloc: Global,
    functions: &[FnId],
    bound: usize,
) -> Result<NumberSet, AllocError>
    ensures { IfOk result (λ s. s ≡ set_all (replicate bound false) (function_numbers functions.now)) }
{
    let mut set = NumberSet::none(alloc, bound)?;
    add_functions(functions, &mut set);
    Ok(set)
}

// adds a function to each half that has it
fn add_function(
    alloc: Global,
    function: CoreFn,
    stays: bool,
    serves: bool,
    slave: &mut Vec<CoreFn>,
    monitor: &mut Vec<CoreFn>,
) -> Result<(), AllocError>
    ensures slave { OnOk result (map view_function slave.new.items ≡ map view_function slave.old.items ++ item_if stays (view_function function)) }
    ensures monitor { OnOk result (map view_function monitor.new.items ≡ map view_function monitor.old.items ++ item_if serves (view_function function)) }
{
    if stays && serves {
        slave.push(function.copy(alloc)?)?;
        monitor.push(function)?;
    } else if stays {
        slave.push(function)?;
    } else if serves {
        monitor.push(function)?;
    }
    Ok(())
}

/// The slave's functions and the monitor's. One that is in both halves is copied, and one that is in
/// neither is left out.
pub(crate) fn share_out(
    alloc: Global,
    code: Vec<CoreFn>,
    in_slave: &NumberSet,
    in_monitor: &NumberSet,
) -> Result<(Vec<CoreFn>, Vec<CoreFn>), AllocError>
    ensures slave { IfOk result (λ r. map view_function r.0.items ≡ chosen_functions (is_set in_slave.now) (map view_function code.items)) }
    ensures monitor { IfOk result (λ r. map view_function r.1.items ≡ chosen_functions (is_set in_monitor.now) (map view_function code.items)) }
{
    let mut slave = Vec::new(alloc);
    let mut monitor = Vec::new(alloc);
    for function in code {
        let stays = in_slave.has(function.id.0);
        let serves = in_monitor.has(function.id.0);
        add_function(alloc, function, stays, serves, &mut slave, &mut monitor)?;
    }
    Ok((slave, monitor))
}
