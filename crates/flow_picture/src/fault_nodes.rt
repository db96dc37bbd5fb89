// Faults as nodes.
ghost use Rattle.std.specs.Prelude.{◌≡◌, ◌++◌, ◌+◌, OnOk};
ghost use Rattle.std.specs.List.Sorted.{IsSorted};
ghost use Rattle.source_places.specs.LinesSeen.{text_of};
ghost use Rattle.flow_picture.specs.Kept.{node_in};
ghost use Rattle.flow_picture.specs.Nodes.{node_cmp};
ghost use Rattle.flow_picture.specs.PictureText as is;

use crate::arrow::node_in;
use crate::node::{Node, push_name};
use crate::search::has_node;
use flow_rules::FlowFault;
use pt_base::Slot;
use source_places::{Lines, Place, push_number};
use stages::room_for;
use std::alloc::AllocError;

// appends `LINE:COLUMN`
fn push_place(place: Place, text: &mut Vec<u8>) -> Result<(), AllocError>
    ensures { OnOk result (text.new.items ≡ text.old.items ++ is.place_text place) }
{
    push_number(place.line, text)?;
    text.push(b':')?;
    push_number(place.column, text)
}

// appends the label of a fault
fn push_fault_label(
    lines: &Lines<'_>,
    fault: &FlowFault,
    text: &mut Vec<u8>,
) -> Result<(), AllocError>
    ensures { OnOk result (text.new.items ≡ text.old.items ++ is.fault_label (text_of lines.now) fault.now) }
{
    push_place(lines.place_of(fault.span.from as usize), text)?;
    text.push(b' ')?;
    text.extend_from_slice(fault.rule.name().as_bytes())
}

// appends the node of the fault of this number
fn push_fault_node(
    lines: &Lines<'_>,
    number: usize,
    fault: &FlowFault,
    text: &mut Vec<u8>,
) -> Result<(), AllocError>
    ensures { OnOk result (text.new.items ≡ text.old.items ++ is.fault_node (text_of lines.now) number fault.now) }
{
    text.extend_from_slice(b"  f")?;
    push_number(number, text)?;
    text.extend_from_slice(b" [label=\"")?;
    push_fault_label(lines, fault, text)?;
    text.extend_from_slice(b"\", color=red, fontcolor=red];\n")
}

// appends an arrow from a node to the fault of this number
fn push_dashed(number: usize, node: Node, text: &mut Vec<u8>) -> Result<(), AllocError>
    ensures { OnOk result (text.new.items ≡ text.old.items ++ is.dashed_arrow number node) }
{
    text.extend_from_slice(b"  ")?;
    push_name(node, text)?;
    text.extend_from_slice(b" -> f")?;
    push_number(number, text)?;
    text.extend_from_slice(b" [color=red, style=dashed];\n")
}

// appends it, if the node is one of these, which ascend
fn push_secret(
    shown: &[Node],
    number: usize,
    node: Node,
    text: &mut Vec<u8>,
) -> Result<(), AllocError>
    requires { IsSorted node_cmp shown.now }
    ensures { OnOk result (text.new.items ≡ text.old.items ++ is.secret_arrow shown.now number node) }
{
    if has_node(shown, node) {
        push_dashed(number, node, text)
    } else {
        Ok(())
    }
}

// appends the arrow from the slot in which the secret of the fault of this number begins, if that is told
fn push_origin(
    nodes: &[Node],
    shown: &[Node],
    number: usize,
    origin: Option<Slot>,
    text: &mut Vec<u8>,
) -> Result<(), AllocError>
    requires { IsSorted node_cmp shown.now }
    ensures { OnOk result (text.new.items ≡ text.old.items ++ is.origin_arrow (node_in nodes.now) shown.now number origin) }
{
    match origin {
        Some(slot) => push_secret(shown, number, node_in(nodes, slot), text),
        None => Ok(()),
    }
}

// appends the fault of this number, by the nodes of all slots
fn push_fault(
    lines: &Lines<'_>,
    nodes: &[Node],
    shown: &[Node],
    number: usize,
    fault: &FlowFault,
    text: &mut Vec<u8>,
) -> Result<(), AllocError>
    requires { IsSorted node_cmp shown.now }
    ensures { OnOk result (text.new.items ≡ text.old.items ++ is.fault_text (text_of lines.now) (node_in nodes.now) shown.now number fault.now) }
{
    push_fault_node(lines, number, fault, text)?;
    push_origin(nodes, shown, number, fault.origin, text)
}

/// Appends faults, counted from 1, by the nodes of all slots; those that are shown ascend.
pub(crate) fn push_faults(
    lines: &Lines<'_>,
    nodes: &[Node],
    shown: &[Node],
    faults: &[FlowFault],
    text: &mut Vec<u8>,
) -> Result<(), AllocError>
    requires { IsSorted node_cmp shown.now }
    ensures { OnOk result (text.new.items ≡ text.old.items ++ is.faults_text (text_of lines.now) (node_in nodes.now) shown.now 1 faults.now) }
{
    let mut before = 0;
    for fault in faults {
        push_fault(lines, nodes, shown, before + 1, fault, text)?;
        before += 1;
        room_for(text.as_slice())?;
    }
    Ok(())
}
