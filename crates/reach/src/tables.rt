// Sets of numbers, as a truth for each number.
ghost use Rattle.std.specs.Prelude.{◌≡◌, ◌++◌, true, IfOk, OnOk, slice_set};
ghost use Rattle.reach.specs.Tables.{places_true, item_if, function_ids, global_ids, slot_numbers};

use pt_base::{FnId, GlobalId, Slot, next_number, sum};
use std::alloc::{AllocError, Global};

/// Adds a number to a set; one past its end isn't added.
pub fn set_true(table: &mut [bool], number: usize)
    ensures { table.new ≡ slice_set table.old number true }
{
    if number < table.len() {
        table[number] = true;
    }
}

/// Appends the item where the truth holds.
pub(crate) fn add_if<T: Copy + Drop>(
    truth: bool,
    item: T,
    list: &mut Vec<T>,
) -> Result<(), AllocError>
    ensures { OnOk result (list.new.items ≡ list.old.items ++ item_if truth item) }
{
    if truth {
        list.push(item)?;
    }
    Ok(())
}

/// The functions of a set, in order.
pub fn functions_in(alloc: Global, table: &[bool]) -> Result<Vec<FnId>, AllocError>
    ensures { IfOk result (λ v. v.items ≡ function_ids (places_true 0 table.now)) }
{
    let mut list = Vec::new(alloc);
    let mut number: u32 = 0;
    for truth in table {
        add_if(*truth, FnId(number), &mut list)?;
        number = next_number(number)?;
    }
    Ok(list)
}

/// The globals of a set, in order.
pub fn globals_in(alloc: Global, table: &[bool]) -> Result<Vec<GlobalId>, AllocError>
    ensures { IfOk result (λ v. v.items ≡ global_ids (places_true 0 table.now)) }
{
    let mut list = Vec::new(alloc);
    let mut number: u32 = 0;
    for truth in table {
        add_if(*truth, GlobalId(number), &mut list)?;
        number = next_number(number)?;
    }
    Ok(list)
}

/// The slots of a set, in order.
pub fn slots_in(alloc: Global, table: &[bool]) -> Result<Vec<Slot>, AllocError>
    ensures { IfOk result (λ v. v.items ≡ slot_numbers (places_true 0 table.now)) }
{
    let mut list = Vec::new(alloc);
    let mut number: u64 = 0;
    for truth in table {
        add_if(*truth, Slot(number), &mut list)?;
        number = sum(number, 1)?;
    }
    Ok(list)
}
