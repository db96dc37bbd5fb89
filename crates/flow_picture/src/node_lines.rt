// The lines of nodes.
ghost use Rattle.std.specs.Prelude.{◌≡◌, ◌++◌, OnOk};
ghost use Rattle.std.specs.List.Sorted.{IsSorted};
ghost use Rattle.typed_tree.specs.TypedView.{view_typed};
ghost use Rattle.flow_picture.specs.Nodes.{node_cmp};
ghost use Rattle.flow_picture.specs.PictureText as is;

use crate::labels::push_label;
use crate::node::{Node, push_name};
use crate::search::has_node;
use std::alloc::AllocError;
use typed_tree::Typed;

// appends a node's name and label
fn push_head(t: &Typed, node: Node, text: &mut Vec<u8>) -> Result<(), AllocError>
    ensures { OnOk result (text.new.items ≡ text.old.items ++ is.node_head (view_typed t.now) node) }
{
    text.extend_from_slice(b"    ")?;
    push_name(node, text)?;
    text.extend_from_slice(b" [label=\"")?;
    push_label(t, node, text)?;
    text.push(b'"')?;
    Ok(())
}

// appends how a node is filled
fn push_fill(secret: bool, text: &mut Vec<u8>) -> Result<(), AllocError>
    ensures { OnOk result (text.new.items ≡ text.old.items ++ is.fill_text secret) }
{
    if secret {
        text.extend_from_slice(b", style=filled")?;
    }
    Ok(())
}

// appends how a node is bordered
fn push_border(begins: bool, text: &mut Vec<u8>) -> Result<(), AllocError>
    ensures { OnOk result (text.new.items ≡ text.old.items ++ is.border_text begins) }
{
    if begins {
        text.extend_from_slice(b", peripheries=2")?;
    }
    Ok(())
}

/// Appends the line of a node, where these, which ascend, hold secrets and secrets begin in those.
pub(crate) fn push_node(
    t: &Typed,
    secrets: &[Node],
    seeds: &[Node],
    node: Node,
    text: &mut Vec<u8>,
) -> Result<(), AllocError>
    requires secrets { IsSorted node_cmp secrets.now }
    requires seeds { IsSorted node_cmp seeds.now }
    ensures { OnOk result (text.new.items ≡ text.old.items ++ is.node_line (view_typed t.now) secrets.now seeds.now node) }
{
    push_head(t, node, text)?;
    push_fill(has_node(secrets, node), text)?;
    push_border(has_node(seeds, node), text)?;
    text.extend_from_slice(b"];\n")?;
    Ok(())
}
