// The privileged slots that are shown of a program that breaks no rule.
ghost use Rattle.std.specs.Prelude.{◌≡◌, ◌<◌, ◌≤◌, ◌++◌, true, false, IfOk, OnOk, length, map, slice_set};
ghost use Rattle.reach.specs.Tables.{item_if};
ghost use Rattle.typed_tree.specs.TypedView.{view_typed};
ghost use Rattle.flow_rules.specs.Faults.{IsAccepted};
ghost use Rattle.flow_check.specs.Kept as is;
ghost use Rattle.flow_check.specs.Shown.{AreShown};

use crate::variables::name_at;
use flow_rules::Accepted;
use pt_base::{GlobalId, Slot};
use sides::{Owner, is_in};
use std::alloc::{AllocError, Global};
use typed_tree::Typed;

/// A privileged slot, and where the name of its variable begins. Slots are ordered by this place, and
/// those of one variable by number, as its leaves are.
#[derive(Clone, Copy, PartialEq, Eq, PartialOrd, Ord)]
pub struct ShownSlot {
    pub at: u32,
    pub slot: u64,
}

// adds a number to a set; one past its end isn't added
fn set_true(table: &mut Vec<bool>, number: usize)
    ensures { table.new.items ≡ slice_set table.old.items number true }
{
    if number < table.len() {
        table[number] = true;
    }
}

// for each of so many globals, whether it is one of these
fn owned_table(alloc: Global, count: usize, owned: &[GlobalId]) -> Result<Vec<bool>, AllocError>
    ensures { IfOk result (λ v. v.items ≡ is.owned_table count owned.now) }
{
    let mut table = vec![in alloc; false; count]?;
    for global in owned {
        set_true(&mut table, global.0 as usize);
    }
    Ok(table)
}

// whether this is a variable of the slave's functions, or one of its globals
fn is_slaves(functions: &[bool], globals: &[bool], owner: Owner) -> bool
    ensures { result ≡ is.is_slaves functions.now globals.now owner }
{
    match owner {
        Owner::Variable { function, .. } => is_in(functions, function.0),
        Owner::Global(global) => is_in(globals, global.0),
        Owner::Result(_) => false,
    }
}

// whether a slot is shown
fn is_kept(accepted: &Accepted, globals: &[bool], slot: u64) -> bool
    requires { slot < length accepted.now.marks }
    ensures { result ≡ is.is_kept accepted.now globals.now slot }
{
    let sides = accepted.sides();
    match sides.slots.as_slice().get(slot as usize) {
        Some(info) => {
            is_slaves(sides.in_slave.as_slice(), globals, info.owner)
                && accepted.marks().is_priv(Slot(slot))
        }
        None => false,
    }
}

// adds a slot, where it is shown
fn add_slot(
    t: &Typed,
    accepted: &Accepted,
    globals: &[bool],
    slot: u64,
    list: &mut Vec<ShownSlot>,
) -> Result<(), AllocError>
    requires { slot < length accepted.now.marks }
    ensures { OnOk result (list.new.items ≡ list.old.items ++ item_if (is.is_kept accepted.now globals.now slot) (is.kept (view_typed t.now) accepted.now.sides.slots slot)) }
{
    if is_kept(accepted, globals, slot) {
        let at = name_at(t, accepted.sides().slots.as_slice(), slot);
        list.push(ShownSlot { at, slot })?;
    }
    Ok(())
}

// of the first so many slots those that are shown, where the slave owns the globals of this set
fn kept_by(
    alloc: Global,
    t: &Typed,
    accepted: &Accepted,
    globals: &[bool],
    count: u64,
) -> Result<Vec<ShownSlot>, AllocError>
    requires { count ≤ length accepted.now.marks }
    ensures { IfOk result (λ v. v.items ≡ is.kept_by (view_typed t.now) accepted.now globals.now count) }
{
    let mut list = Vec::new(alloc);
    for slot in 0..count {
        add_slot(t, accepted, globals, slot, &mut list)?;
    }
    Ok(list)
}

/// The privileged slots of the slave's variables and globals, in order. Time is linear in the program's
/// slots, but for the sort.
pub fn shown_slots(
    alloc: Global,
    t: &Typed,
    accepted: &Accepted,
) -> Result<Vec<ShownSlot>, AllocError>
    requires { IsAccepted (view_typed t.now) accepted.now }
    ensures { IfOk result (λ v. AreShown (view_typed t.now) accepted.now.sides (map (λ s. s.slot) v.items)) }
{
    let sides = accepted.sides();
    let globals = owned_table(alloc, t.globals.as_slice().len(), sides.owned.as_slice())?;
    let count = sides.slots.as_slice().len() as u64;
    let mut list = kept_by(alloc, t, accepted, globals.as_slice(), count)?;
    list.sort_unstable();
    Ok(list)
}
