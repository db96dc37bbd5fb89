// The labels of nodes.
ghost use Rattle.std.specs.Prelude.{◌≡◌, ◌++◌, OnOk};
ghost use Rattle.typed_tree.specs.TypedView.{view_typed};
ghost use Rattle.flow_picture.specs.Labels as is;

use crate::node::{Node, owner_of};
use flow_check::variable_of;
use pt_base::FnId;
use std::alloc::AllocError;
use typed_tree::Typed;

fn is_letter(byte: u8) -> bool
    ensures { result ≡ is.is_letter byte }
{
    (65 <= byte && byte <= 90) || (97 <= byte && byte <= 122)
}

fn is_digit(byte: u8) -> bool
    ensures { result ≡ is.is_digit byte }
{
    48 <= byte && byte <= 57
}

// whether it is a space, `_`, `(` or `)`
fn is_sign(byte: u8) -> bool
    ensures { result ≡ is.is_sign byte }
{
    (byte == b' ' || byte == b'_') || (byte == b'(' || byte == b')')
}

// a byte as it stands in a label
fn label_byte(byte: u8) -> u8
    ensures { result ≡ is.label_byte byte }
{
    if is_letter(byte) || is_digit(byte) || is_sign(byte) {
        byte
    } else {
        b'?'
    }
}

// appends bytes as they stand in a label
fn push_label_bytes(bytes: &[u8], text: &mut Vec<u8>) -> Result<(), AllocError>
    ensures { OnOk result (text.new.items ≡ text.old.items ++ is.label_bytes bytes.now) }
{
    for byte in bytes {
        text.push(label_byte(*byte))?;
    }
    Ok(())
}

// appends the name of a variable or global
fn push_object_name(t: &Typed, node: Node, text: &mut Vec<u8>) -> Result<(), AllocError>
    ensures { OnOk result (text.new.items ≡ text.old.items ++ is.object_name (view_typed t.now) node) }
{
    match variable_of(t, owner_of(node)) {
        Some(variable) => push_label_bytes(variable.name.as_slice(), text),
        None => Ok(()),
    }
}

// appends the name of a function
fn push_function_name(t: &Typed, function: u32, text: &mut Vec<u8>) -> Result<(), AllocError>
    ensures { OnOk result (text.new.items ≡ text.old.items ++ is.function_name (view_typed t.now) function) }
{
    match t.signature(FnId(function)) {
        Some(signature) => push_label_bytes(signature.name.as_slice(), text),
        None => Ok(()),
    }
}

/// Appends the label of a node.
pub(crate) fn push_label(t: &Typed, node: Node, text: &mut Vec<u8>) -> Result<(), AllocError>
    ensures { OnOk result (text.new.items ≡ text.old.items ++ is.label_of (view_typed t.now) node) }
{
    match node {
        Node::Global(_) => push_object_name(t, node, text),
        Node::Variable { function, .. } => {
            push_object_name(t, node, text)?;
            text.extend_from_slice(b" in ")?;
            push_function_name(t, function, text)
        }
        Node::Result(function) => {
            push_function_name(t, function, text)?;
            text.extend_from_slice(b"()")
        }
    }
}
