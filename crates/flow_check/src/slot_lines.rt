// The lines of privileged slots.
ghost use Rattle.std.specs.Prelude.{◌≡◌, ◌++◌, IfOk, OnOk, option_copied, slice_index_or};
ghost use Rattle.sides.specs.LeafTables as leaves;
ghost use Rattle.sides.specs.Slots.{no_slot};
ghost use Rattle.typed_tree.specs.TypedView.{view_typed};
ghost use Rattle.flow_rules.specs.Faults.{IsAccepted};
ghost use Rattle.flow_check.specs.Checked.{HasSlotLines};
ghost use Rattle.flow_check.specs.Kept.{kept_lines};
ghost use Rattle.flow_check.specs.SlotLines as is;

use crate::line_end::LineEnd;
use crate::shown::{ShownSlot, shown_slots};
use crate::variables::variable_of;
use flow_rules::Accepted;
use pt_base::Span;
use pt_tree::Elem;
use sides::SlotInfo;
use stages::room_for;
use std::alloc::{AllocError, Global};
use typed_tree::{Field, StructInfo, Typed, Var, VarTy};

// the struct that an element is, if it is one
fn elem_struct(elem: Elem) -> Option<u32>
    ensures { result ≡ leaves.elem_struct elem }
{
    match elem {
        Elem::Int(_) => None,
        Elem::Struct(number) => Some(number),
    }
}

// the struct that an object is, points to or has as its elements
fn named_struct(ty: VarTy) -> Option<u32>
    ensures { result ≡ leaves.named_struct ty }
{
    match ty {
        VarTy::Int(_) => None,
        VarTy::Struct(number) => Some(number),
        VarTy::Array { elem, .. } => elem_struct(elem),
        VarTy::Pointer { elem, .. } => elem_struct(elem),
    }
}

// the field of this number of that struct
fn field_of(structs: &[StructInfo], ty: VarTy, number: u32) -> Option<&Field>
    ensures { option_copied result ≡ is.field_of structs.now ty number }
{
    let named = named_struct(ty)?;
    let info = structs.get(named as usize)?;
    info.fields.as_slice().get(number as usize)
}

/// Appends the names of the fields of a path, each behind a dot. Where memory is wanting, a first part of them
/// may stand there.
pub fn push_fields(
    structs: &[StructInfo],
    ty: VarTy,
    path: &[u32],
    lines: &mut Vec<u8>,
) -> Result<(), AllocError>
    ensures { OnOk result (lines.new.items ≡ lines.old.items ++ is.fields_text structs.now ty path.now) }
{
    let mut ty = ty;
    for number in path {
        let Some(field) = field_of(structs, ty, *number) else {
            return Ok(());
        };
        lines.push(b'.')?;
        lines.extend_from_slice(field.name.as_slice())?;
        ty = field.ty;
    }
    Ok(())
}

// appends the line of a leaf of a variable
fn push_variable(
    alloc: Global,
    structs: &[StructInfo],
    path: &[u32],
    variable: &Var,
    end: &mut LineEnd,
    lines: &mut Vec<u8>,
) -> Result<(), AllocError>
    ensures { OnOk result (lines.new.items ≡ lines.old.items ++ is.variable_line structs.now path.now variable.now) }
{
    lines.extend_from_slice(b"priv ")?;
    lines.extend_from_slice(variable.name.as_slice())?;
    push_fields(structs, variable.ty, path, lines)?;
    end.push(alloc, variable.span, lines)
}

// appends the line of a slot
fn push_info(
    alloc: Global,
    t: &Typed,
    info: &SlotInfo,
    end: &mut LineEnd,
    lines: &mut Vec<u8>,
) -> Result<(), AllocError>
    ensures { OnOk result (lines.new.items ≡ lines.old.items ++ is.info_line (view_typed t.now) info.now) }
{
    match variable_of(t, info.owner) {
        Some(variable) => {
            let structs = t.structs.as_slice();
            push_variable(alloc, structs, info.path.as_slice(), variable, end, lines)
        }
        None => Ok(()),
    }
}

// appends the line of the slot of this number
fn push_slot(
    alloc: Global,
    t: &Typed,
    slots: &[SlotInfo],
    slot: u64,
    end: &mut LineEnd,
    lines: &mut Vec<u8>,
) -> Result<(), AllocError>
    ensures { OnOk result (lines.new.items ≡ lines.old.items ++ is.info_line (view_typed t.now) (slice_index_or slots.now slot no_slot)) }
{
    match slots.get(slot as usize) {
        Some(info) => push_info(alloc, t, info, end, lines),
        None => Ok(()),
    }
}

// the lines of these slots
fn lines_of(
    alloc: Global,
    t: &Typed,
    slots: &[SlotInfo],
    shown: &[ShownSlot],
) -> Result<Vec<u8>, AllocError>
    ensures { IfOk result (λ lines. lines.items ≡ kept_lines (view_typed t.now) slots.now shown.now) }
{
    let mut lines = Vec::new(alloc);
    let mut end = LineEnd::new(alloc, Span { from: 0, to: 0 })?;
    for slot in shown {
        push_slot(alloc, t, slots, slot.slot, &mut end, &mut lines)?;
        room_for(lines.as_slice())?;
    }
    Ok(lines)
}

/// The lines of the privileged slots of a program that breaks no rule.
pub(crate) fn slot_lines(
    alloc: Global,
    t: &Typed,
    accepted: &Accepted,
) -> Result<Vec<u8>, AllocError>
    requires { IsAccepted (view_typed t.now) accepted.now }
    ensures { IfOk result (λ lines. HasSlotLines (view_typed t.now) lines.items) }
{
    let shown = shown_slots(alloc, t, accepted)?;
    let slots = accepted.sides().slots.as_slice();
    let lines = lines_of(alloc, t, slots, shown.as_slice())?;
    Ok(lines)
}
