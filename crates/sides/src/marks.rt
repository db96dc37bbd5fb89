// Which slots are marked.
ghost use Rattle.std.specs.Prelude.{◌≡◌, false, IfOk, get_or, map, option_map, slice_get};
ghost use Rattle.std.specs.Option.{option_map_or};
ghost use Rattle.typed_tree.specs.TypedTree.{view_function};
ghost use Rattle.typed_tree.specs.TypedView.{view_typed};
ghost use Rattle.typed_tree.specs.Lookup.{function_at};
ghost use Rattle.sides.specs.Marking as marking;
ghost use Rattle.sides.specs.Seeds as is;

use crate::slots::{Owner, SlotInfo};
use pt_base::{FnId, GlobalId, VarId};
use reach::function_at;
use std::alloc::{AllocError, Global};
use typed_tree::{Typed, TypedFn};

// whether the variable of this number is marked
fn marked_in(function: &TypedFn, var: VarId) -> bool
    ensures { result ≡ option_map_or (λ y. y.marked) (slice_get (view_function function.now).vars var.0) false }
{
    match function.vars.as_slice().get(var.0 as usize) {
        Some(var) => var.marked,
        None => false,
    }
}

// whether a variable is marked
fn variable_marked(t: &Typed, function: FnId, var: VarId) -> bool
    ensures { result ≡ is.owner_marked (view_typed t.now) (Owner.Variable function var) }
{
    match function_at(t, function) {
        Some(function) => marked_in(function, var),
        None => false,
    }
}

// whether a global is marked
fn global_marked(t: &Typed, global: GlobalId) -> bool
    ensures { result ≡ is.owner_marked (view_typed t.now) (Owner.Global global) }
{
    match t.globals.as_slice().get(global.0 as usize) {
        Some(global) => global.var.marked,
        None => false,
    }
}

// whether what a function or host returns is secret
fn result_marked(t: &Typed, function: FnId) -> bool
    ensures { result ≡ is.owner_marked (view_typed t.now) (Owner.Result function) }
{
    match function_at(t, function) {
        Some(function) => function.signature.privileged && !function.signature.declassify,
        None => false,
    }
}

// whether the object itself is marked
fn owner_marked(t: &Typed, owner: Owner) -> bool
    ensures { result ≡ is.owner_marked (view_typed t.now) owner }
{
    match owner {
        Owner::Variable { function, var } => variable_marked(t, function, var),
        Owner::Global(global) => global_marked(t, global),
        Owner::Result(function) => result_marked(t, function),
    }
}

/// Whether the number is in a set.
pub fn is_in(table: &[bool], number: u32) -> bool
    ensures { result ≡ get_or table.now number false }
{
    match table.get(number as usize) {
        Some(truth) => *truth,
        None => false,
    }
}

// whether an object stands in the code of the functions of a set, or is a global of the other set
fn stands_in(table: &[bool], owned: &[bool], owner: Owner) -> bool
    ensures { result ≡ marking.stands_in table.now owned.now owner }
{
    match owner {
        Owner::Variable { function, .. } => is_in(table, function.0),
        Owner::Global(global) => is_in(owned, global.0),
        Owner::Result(_) => true,
    }
}

// whether a slot is marked, where these sets have the slave's functions and globals
fn is_marked(t: &Typed, table: &[bool], owned: &[bool], slot: &SlotInfo) -> bool
    ensures { result ≡ marking.is_marked_slot (view_typed t.now) table.now owned.now slot.now }
{
    stands_in(table, owned, slot.owner) && (owner_marked(t, slot.owner) || slot.marked)
}

/// For each slot, whether it is marked, where `table` tells which functions are the slave's, and `owned` which
/// globals are.
pub(crate) fn marked_slots(
    alloc: Global,
    t: &Typed,
    table: &[bool],
    owned: &[bool],
    slots: &[SlotInfo],
) -> Result<Vec<bool>, AllocError>
    ensures { IfOk result (λ v. v.items ≡ map (marking.is_marked_slot (view_typed t.now) table.now owned.now) slots.now) }
{
    let mut marks = Vec::with_capacity(alloc, slots.len())?;
    for slot in slots {
        marks.push(is_marked(t, table, owned, slot))?;
    }
    Ok(marks)
}
