// Why secrets begin in slots.
ghost use Rattle.std.specs.Prelude.{◌≡◌, ◌++◌, IfOk, OnOk, codes, slice_index_or};
ghost use Rattle.sides.specs.Slots.{no_slot};
ghost use Rattle.typed_tree.specs.TypedView.{view_typed};
ghost use Rattle.explaining.specs.Origins as is;

use flow_check::{push_fields, variable_of};
use pt_base::{FnId, Slot};
use sides::{Owner, SlotInfo};
use std::alloc::{AllocError, Global};
use typed_tree::{Typed, Var};

// why an object is secret, or a part of it
fn object_cause(marked: bool, field: bool) -> &'static str
    ensures { result.now ≡ is.object_cause marked field }
{
    if marked {
        return " is marked priv";
    }
    if field {
        " lies under a field marked priv"
    } else {
        " comes back from a privileged function"
    }
}

// appends why a leaf of a variable is secret
fn push_variable(
    t: &Typed,
    info: &SlotInfo,
    variable: &Var,
    text: &mut Vec<u8>,
) -> Result<(), AllocError>
    ensures { OnOk result (text.new.items ≡ text.old.items ++ is.variable_cause (view_typed t.now) info.now variable.now) }
{
    text.extend_from_slice(b": `")?;
    text.extend_from_slice(variable.name.as_slice())?;
    push_fields(
        t.structs.as_slice(),
        variable.ty,
        info.path.as_slice(),
        text,
    )?;
    text.push(b'`')?;
    let cause = object_cause(variable.marked, info.marked);
    text.extend_from_slice(cause.as_bytes())?;
    Ok(())
}

// appends why a leaf of an object is secret
fn push_object(t: &Typed, info: &SlotInfo, text: &mut Vec<u8>) -> Result<(), AllocError>
    ensures { OnOk result (text.new.items ≡ text.old.items ++ is.object_text (view_typed t.now) info.now) }
{
    match variable_of(t, info.owner) {
        Some(variable) => push_variable(t, info, variable, text),
        None => Ok(()),
    }
}

// appends why what the function of this name returns is secret
fn push_returned(name: &[u8], text: &mut Vec<u8>) -> Result<(), AllocError>
    ensures { OnOk result (text.new.items ≡ text.old.items ++ is.returned_text name.now) }
{
    text.extend_from_slice(b": what `")?;
    text.extend_from_slice(name)?;
    text.extend_from_slice(b"` returns is privileged")?;
    Ok(())
}

// appends why what a function returns is secret
fn push_result(t: &Typed, function: FnId, text: &mut Vec<u8>) -> Result<(), AllocError>
    ensures { OnOk result (text.new.items ≡ text.old.items ++ is.result_cause (view_typed t.now) function) }
{
    if let Some(signature) = t.signature(function) {
        push_returned(signature.name.as_slice(), text)?;
    }
    Ok(())
}

// appends why a slot is secret
fn push_cause(t: &Typed, info: &SlotInfo, text: &mut Vec<u8>) -> Result<(), AllocError>
    ensures { OnOk result (text.new.items ≡ text.old.items ++ is.cause_of (view_typed t.now) info.now) }
{
    match info.owner {
        Owner::Variable { .. } => push_object(t, info, text),
        Owner::Global(_) => push_object(t, info, text),
        Owner::Result(function) => push_result(t, function, text),
    }
}

// the cause of the slot of this number
fn cause_at(alloc: Global, t: &Typed, slots: &[SlotInfo], slot: u64) -> Result<Vec<u8>, AllocError>
    ensures { IfOk result (λ text. text.items ≡ is.cause_of (view_typed t.now) (slice_index_or slots.now slot no_slot)) }
{
    let mut text = Vec::new(alloc);
    match slots.get(slot as usize) {
        Some(info) => push_cause(t, info, &mut text)?,
        None => push_result(t, FnId(0), &mut text)?,
    }
    Ok(text)
}

/// Why a secret begins in a slot, if one is told.
pub(crate) fn origin_text(
    alloc: Global,
    t: &Typed,
    slots: &[SlotInfo],
    origin: Option<Slot>,
) -> Result<Vec<u8>, AllocError>
    ensures { IfOk result (λ text. text.items ≡ is.origin_text (view_typed t.now) slots.now origin) }
{
    match origin {
        Some(slot) => cause_at(alloc, t, slots, slot.0),
        None => Ok(Vec::new(alloc)),
    }
}
