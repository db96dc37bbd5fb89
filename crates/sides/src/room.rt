// How many slots a program has, and how many numbers are in their paths, counted before they are made.
ghost use Rattle.std.specs.Prelude.{◌≡◌, ◌≤◌, ◌^◌, IfOk, OnOk, map};
ghost use Rattle.sides.specs.Leaves.{leaf_count};
ghost use Rattle.sides.specs.LeafTables.{IsLeafTable};
ghost use Rattle.sides.specs.Objects as is;
ghost use Rattle.typed_tree.specs.TypedTree.{view_function};
ghost use Rattle.typed_tree.specs.TypedView.{view_typed};

use crate::leaf_table::LeafTable;
use crate::leaves::struct_of;
use pt_base::sum;
use std::alloc::{AllocError, Global};
use typed_tree::{Field, StructInfo, Typed, TypedFn, TypedGlobal, Var};

/// The most slots of a program. What has more is answered as want of memory, before any is made.
pub const MOST_SLOTS: u64 = 33_554_432;

/// The most numbers in the paths of all structs that have objects. What has more is answered as want of
/// memory, before any path is made.
pub const MOST_PATH_NUMBERS: u64 = 67_108_864;

// how many slots globals have
fn globals_count(
    structs: &[StructInfo],
    table: &LeafTable,
    globals: &[TypedGlobal],
) -> Result<u64, AllocError>
    requires { IsLeafTable structs.now table.now }
    ensures { IfOk result (λ n. n ≡ is.types_count (leaf_count structs.now) (map (λ g. g.var.ty) globals.now)) }
{
    let mut all = 0;
    for global in globals {
        all = sum(all, table.count(global.var.ty))?;
    }
    Ok(all)
}

// how many slots variables have
fn variables_count(
    structs: &[StructInfo],
    table: &LeafTable,
    vars: &[Var],
) -> Result<u64, AllocError>
    requires { IsLeafTable structs.now table.now }
    ensures { IfOk result (λ n. n ≡ is.types_count (leaf_count structs.now) (map (λ x. x.ty) vars.now)) }
{
    let mut all = 0;
    for var in vars {
        all = sum(all, table.count(var.ty))?;
    }
    Ok(all)
}

// how many slots the variables of functions have
fn functions_count(
    structs: &[StructInfo],
    table: &LeafTable,
    functions: &[TypedFn],
) -> Result<u64, AllocError>
    requires { IsLeafTable structs.now table.now }
    ensures { IfOk result (λ n. n ≡ is.functions_count (leaf_count structs.now) (map view_function functions.now)) }
{
    let mut all = 0;
    for function in functions {
        let own = variables_count(structs, table, function.vars.as_slice())?;
        all = sum(all, own)?;
    }
    Ok(all)
}

// how many slots a program has
fn slot_count(structs: &[StructInfo], table: &LeafTable, t: &Typed) -> Result<u64, AllocError>
    requires structs { structs.now ≡ (view_typed t.now).structs }
    requires table { IsLeafTable structs.now table.now }
    ensures { IfOk result (λ n. n ≡ is.slot_count (view_typed t.now)) }
{
    let globals = globals_count(structs, table, t.globals.as_slice())?;
    let variables = functions_count(structs, table, &t.functions)?;
    let objects = sum(globals, variables)?;
    sum(objects, t.functions.len() as u64)
}

// whether there are few enough
fn at_most(count: u64, most: u64) -> Result<(), AllocError>
    ensures { OnOk result (count ≤ most) }
{
    if count > most {
        return Err(AllocError);
    }
    Ok(())
}

/// Whether there is room for the slots of a program: exactly where it has at most [`MOST_SLOTS`].
pub(crate) fn room_for_slots(
    structs: &[StructInfo],
    table: &LeafTable,
    t: &Typed,
) -> Result<(), AllocError>
    requires structs { structs.now ≡ (view_typed t.now).structs }
    requires table { IsLeafTable structs.now table.now }
    ensures { OnOk result (is.slot_count (view_typed t.now) ≤ 2 ^ 25) }
{
    let count = slot_count(structs, table, t)?;
    at_most(count, MOST_SLOTS)
}

// the number at this place, 0 where there is none
fn at(numbers: &[u64], place: Option<u32>) -> u64 {
    match place {
        Some(place) => match numbers.get(place as usize) {
            Some(number) => *number,
            None => 0,
        },
        None => 0,
    }
}

// how many numbers are in the paths of the leaves of a struct with these fields
fn fields_numbers(table: &LeafTable, known: &[u64], fields: &[Field]) -> u64 {
    let mut all: u64 = 0;
    for field in fields {
        let below = at(known, struct_of(field.ty));
        all = all.saturating_add(below.saturating_add(table.count(field.ty)));
    }
    all
}

// whether the number is in a set
fn is_in(table: &[bool], number: usize) -> bool {
    match table.get(number) {
        Some(truth) => *truth,
        None => false,
    }
}

/// Whether there is room for the paths of the structs of a set, which has a truth for each: exactly where they
/// have at most [`MOST_PATH_NUMBERS`] numbers. A wrong answer would cost room alone.
pub(crate) fn room_for_paths(
    alloc: Global,
    structs: &[StructInfo],
    table: &LeafTable,
    needed: &[bool],
) -> Result<(), AllocError> {
    let mut known = Vec::new(alloc);
    let mut all: u64 = 0;
    for (number, info) in structs.iter().enumerate() {
        let numbers = fields_numbers(table, known.as_slice(), info.fields.as_slice());
        if is_in(needed, number) {
            all = all.saturating_add(numbers);
        }
        known.push(numbers)?;
    }
    at_most(all, MOST_PATH_NUMBERS)
}
