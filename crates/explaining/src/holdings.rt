// The lines that tell which variables of an accepted program hold secrets.
ghost use Rattle.std.specs.Prelude.{◌≡◌, ◌++◌, IfOk, OnOk, slice_index_or};
ghost use Rattle.sides.specs.Slots.{no_slot};
ghost use Rattle.source_places.specs.LinesSeen.{text_of};
ghost use Rattle.typed_tree.specs.TypedView.{view_typed};
ghost use Rattle.flow_rules.specs.Faults.{IsAccepted};
ghost use Rattle.explaining.specs.Explains.{HasHoldings};
ghost use Rattle.explaining.specs.Holdings as is;

use flow_check::{ShownSlot, push_fields, shown_slots, variable_of};
use flow_rules::Accepted;
use pt_base::FnId;
use sides::{Owner, SlotInfo};
use source_places::Lines;
use stages::room_for;
use std::alloc::{AllocError, Global};
use typed_tree::{StructInfo, Typed, Var};

/// Appends `in FUNCTION: ` of the function of this number.
pub(crate) fn push_function(t: &Typed, function: FnId, text: &mut Vec<u8>) -> Result<(), AllocError>
    ensures { OnOk result (text.new.items ≡ text.old.items ++ is.function_text (view_typed t.now) function) }
{
    if let Some(signature) = t.signature(function) {
        text.extend_from_slice(b"in ")?;
        text.extend_from_slice(signature.name.as_slice())?;
        text.extend_from_slice(b": ")?;
    }
    Ok(())
}

// appends `in FUNCTION: ` of a variable
fn push_home(t: &Typed, owner: Owner, text: &mut Vec<u8>) -> Result<(), AllocError>
    ensures { OnOk result (text.new.items ≡ text.old.items ++ is.home_text (view_typed t.now) owner) }
{
    match owner {
        Owner::Variable { function, .. } => push_function(t, function, text),
        Owner::Global(_) => Ok(()),
        Owner::Result(_) => Ok(()),
    }
}

// appends the name of a leaf of a variable, and that it holds a secret
fn push_named(
    structs: &[StructInfo],
    path: &[u32],
    variable: &Var,
    text: &mut Vec<u8>,
) -> Result<(), AllocError>
    ensures { OnOk result (text.new.items ≡ text.old.items ++ is.named_text structs.now path.now variable.now) }
{
    text.extend_from_slice(variable.name.as_slice())?;
    push_fields(structs, variable.ty, path, text)?;
    text.extend_from_slice(b" holds a secret\n")?;
    Ok(())
}

// appends the line of a leaf of a variable
fn push_variable(
    name: &[u8],
    lines: &Lines<'_>,
    t: &Typed,
    info: &SlotInfo,
    variable: &Var,
    text: &mut Vec<u8>,
) -> Result<(), AllocError>
    ensures { OnOk result (text.new.items ≡ text.old.items ++ is.variable_text name.now (text_of lines.now) (view_typed t.now) info.now variable.now) }
{
    lines.push_head(name, variable.span.from as usize, text)?;
    push_home(t, info.owner, text)?;
    let structs = t.structs.as_slice();
    push_named(structs, info.path.as_slice(), variable, text)
}

// appends the line of a slot
fn push_info(
    name: &[u8],
    lines: &Lines<'_>,
    t: &Typed,
    info: &SlotInfo,
    text: &mut Vec<u8>,
) -> Result<(), AllocError>
    ensures { OnOk result (text.new.items ≡ text.old.items ++ is.info_text name.now (text_of lines.now) (view_typed t.now) info.now) }
{
    match variable_of(t, info.owner) {
        Some(variable) => push_variable(name, lines, t, info, variable, text),
        None => Ok(()),
    }
}

// appends the line of the slot of this number
fn push_slot(
    name: &[u8],
    lines: &Lines<'_>,
    t: &Typed,
    slots: &[SlotInfo],
    slot: u64,
    text: &mut Vec<u8>,
) -> Result<(), AllocError>
    ensures { OnOk result (text.new.items ≡ text.old.items ++ is.info_text name.now (text_of lines.now) (view_typed t.now) (slice_index_or slots.now slot no_slot)) }
{
    match slots.get(slot as usize) {
        Some(info) => push_info(name, lines, t, info, text),
        None => Ok(()),
    }
}

// the lines of these slots
fn lines_of(
    alloc: Global,
    name: &[u8],
    lines: &Lines<'_>,
    t: &Typed,
    slots: &[SlotInfo],
    shown: &[ShownSlot],
) -> Result<Vec<u8>, AllocError>
    ensures { IfOk result (λ text. text.items ≡ is.kept_texts name.now (text_of lines.now) (view_typed t.now) slots.now shown.now) }
{
    let mut text = Vec::new(alloc);
    for slot in shown {
        push_slot(name, lines, t, slots, slot.slot, &mut text)?;
        room_for(text.as_slice())?;
    }
    Ok(text)
}

/// The lines that tell which variables hold secrets of a program that breaks no rule: of this text and typed tree, in a
/// file of this name. Time is linear in the text, in the program's slots and in what is written, but for putting slots
/// in order and finding their lines.
///
/// # Errors
///
/// Want of memory; more than [`MOST_BYTES`](stages::MOST_BYTES) of lines are that too.
pub fn holding_lines(
    alloc: Global,
    name: &[u8],
    program: &[u8],
    t: &Typed,
    accepted: &Accepted,
) -> Result<Vec<u8>, AllocError>
    requires { IsAccepted (view_typed t.now) accepted.now }
    ensures { IfOk result (λ text. HasHoldings name.now program.now (view_typed t.now) text.items) }
{
    let lines = Lines::new(alloc, program)?;
    let shown = shown_slots(alloc, t, accepted)?;
    let slots = accepted.sides().slots.as_slice();
    let text = lines_of(alloc, name, &lines, t, slots, shown.as_slice())?;
    Ok(text)
}
