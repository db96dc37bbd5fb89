// The halves as text, printed item by item: no more than one item's tree is in memory.
ghost use Rattle.std.specs.Prelude.{◌≡◌, IfOk, IsTrue, OnOk, length, map};
ghost use Rattle.std.specs.List.{range_with_len};
ghost use Rattle.pt_core.specs.CodeTree.{view_monitor, view_slave};
ghost use Rattle.pt_core.specs.WellFormed.{is_well_formed_monitor, is_well_formed_slave};
ghost use Rattle.c_printer.specs.Items.{text_of};
ghost use Rattle.c_printer.specs.ReadsBack.{ReadsBack};
ghost use Rattle.half_trees.specs.Declarations as declared;
ghost use Rattle.half_trees.specs.Functions as functions;
ghost use Rattle.half_trees.specs.Halves as halves;
ghost use Rattle.half_trees.specs.Views.{view_half};
ghost use Rattle.split_text.specs.Texts.{monitor_text, printed, slave_text};

use crate::weight::is_too_large;
use c_printer::Sheet;
use c_printer_law::what_is_printed_reads_back;
use half_trees::Half;
use half_trees_law::{monitor_trees_are_plain, slave_trees_are_plain};
use pt_core::{MonitorProgram, SlaveProgram};
use std::alloc::{AllocError, Global};

const SLAVE: &[u8] = b"The slave's half. What is privileged the monitor does for it.";

const MONITOR: &[u8] =
    b"The monitor's half. It does what is privileged, when the slave asks for it.";

// Prints the structs.
fn print_structs(alloc: Global, half: &Half<'_>, sheet: &mut Sheet) -> Result<(), AllocError>
    ensures { OnOk result (sheet.new ≡ printed (map (declared.struct_item (view_half half.now).structs) (range_with_len 0 (length (view_half half.now).structs))) sheet.old) }
{
    for n in 0..half.structs.len() {
        let item = half.struct_item(alloc, n)?;
        sheet.print_item(&item)?;
    }
    Ok(())
}

// Prints the prototypes.
fn print_prototypes(alloc: Global, half: &Half<'_>, sheet: &mut Sheet) -> Result<(), AllocError>
    ensures { OnOk result (sheet.new ≡ printed (map (halves.prototype_of half.now.monitor (view_half half.now)) (view_half half.now).signatures) sheet.old) }
{
    for entry in half.signatures {
        let item = half.prototype_item(alloc, entry.0, &entry.1)?;
        sheet.print_item(&item)?;
    }
    Ok(())
}

// Prints the globals.
fn print_globals(alloc: Global, half: &Half<'_>, sheet: &mut Sheet) -> Result<(), AllocError>
    ensures { OnOk result (sheet.new ≡ printed (map (declared.global_item (view_half half.now).structs) (view_half half.now).globals) sheet.old) }
{
    for global in half.globals {
        let item = half.global_item(alloc, global)?;
        sheet.print_item(&item)?;
    }
    Ok(())
}

// Prints the functions.
fn print_functions(alloc: Global, half: &Half<'_>, sheet: &mut Sheet) -> Result<(), AllocError>
    ensures { OnOk result (sheet.new ≡ printed (map (functions.function_item (view_half half.now)) (view_half half.now).functions) sheet.old) }
{
    for function in half.functions {
        let item = half.function_item(alloc, function)?;
        sheet.print_item(&item)?;
    }
    Ok(())
}

// Prints all items of a half behind a heading.
fn print_half(alloc: Global, half: &Half<'_>, heading: &[u8]) -> Result<Vec<u8>, AllocError>
    ensures { IfOk result (λ text. text.items ≡ text_of heading.now (halves.half_tree half.now.monitor (view_half half.now))) }
{
    let mut sheet = Sheet::new(alloc, heading)?;
    print_structs(alloc, half, &mut sheet)?;
    print_prototypes(alloc, half, &mut sheet)?;
    print_globals(alloc, half, &mut sheet)?;
    print_functions(alloc, half, &mut sheet)?;
    sheet.finish()
}

/// The text of the slave's half. Of a well formed program it reads back: the relations of tokens and
/// grammar, which have no limits, join it to the half's tree, positions aside. Beside the text it takes
/// memory for one item at a time; time grows with the text. Statements that are nested take stack.
///
/// # Errors
///
/// Want of memory, also where clearing the half's variables would take more than some 2 GiB.
pub fn print_slave(alloc: Global, program: &SlaveProgram) -> Result<Vec<u8>, AllocError>
    ensures text { IfOk result (λ text. text.items ≡ slave_text (view_slave program.now)) }
    ensures reads_back { IsTrue (is_well_formed_slave (view_slave program.now)) → IfOk result (λ text. ReadsBack text.items (halves.slave_tree (view_slave program.now))) }
{
    what_is_printed_reads_back();
    slave_trees_are_plain();
    if is_too_large(alloc, program.structs.as_slice(), &program.functions)? {
        return Err(AllocError);
    }
    let half = Half::of_slave(alloc, program)?;
    print_half(alloc, &half, SLAVE)
}

/// The text of the monitor's half, in the same way.
///
/// # Errors
///
/// Want of memory, also where clearing the half's variables would take more than some 2 GiB.
pub fn print_monitor(alloc: Global, program: &MonitorProgram) -> Result<Vec<u8>, AllocError>
    ensures text { IfOk result (λ text. text.items ≡ monitor_text (view_monitor program.now)) }
    ensures reads_back { IsTrue (is_well_formed_monitor (view_monitor program.now)) → IfOk result (λ text. ReadsBack text.items (halves.monitor_tree (view_monitor program.now))) }
{
    what_is_printed_reads_back();
    monitor_trees_are_plain();
    if is_too_large(alloc, program.structs.as_slice(), &program.functions)? {
        return Err(AllocError);
    }
    let half = Half::of_monitor(alloc, program)?;
    print_half(alloc, &half, MONITOR)
}
