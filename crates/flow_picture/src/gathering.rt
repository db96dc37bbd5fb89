// Nodes and arrows that are gathered, of which what is repeated at once is kept once.
ghost use Rattle.std.specs.Prelude.{◌≡◌, ◌++◌, ◌∷◌, [], IsTrue, OnOk};
ghost use Rattle.std.specs.List.{Contains};
ghost use Rattle.std.specs.List.Sorted.{IsSorted};
ghost use Rattle.reach.specs.Tables.{item_if};
ghost use Rattle.flow_picture.specs.Kept.{HasSame, drawn_arrows};
ghost use Rattle.flow_picture.specs.Nodes.{node_cmp};

use crate::arrow::{Arrow, is_drawn};
use crate::node::Node;
use crate::order::arrange_arrows;
use crate::room::room_for_arrows;
use std::alloc::AllocError;

/// So many arrows are gathered before those that are repeated are taken out.
const MOST_GATHERED: usize = 16_777_216;

// whether a node is the last one of these
fn is_last_node(nodes: &[Node], node: Node) -> bool
    ensures { IsTrue result → Contains nodes.now node }
{
    match nodes.last() {
        Some(last) => *last == node,
        None => false,
    }
}

// adds a node
fn add_node(node: Node, nodes: &mut Vec<Node>) -> Result<(), AllocError>
    ensures { OnOk result (HasSame nodes.new.items (nodes.old.items ++ node ∷ [])) }
{
    if is_last_node(nodes.as_slice(), node) {
        return Ok(());
    }
    nodes.push(node)?;
    Ok(())
}

/// Adds a node where the truth holds.
pub(crate) fn add_node_if(truth: bool, node: Node, nodes: &mut Vec<Node>) -> Result<(), AllocError>
    ensures { OnOk result (HasSame nodes.new.items (nodes.old.items ++ item_if truth node)) }
{
    if truth {
        add_node(node, nodes)?;
        Ok(())
    } else {
        Ok(())
    }
}

// whether an arrow is the last one of these
fn is_last_arrow(arrows: &[Arrow], arrow: Arrow) -> bool
    ensures { IsTrue result → Contains arrows.now arrow }
{
    match arrows.last() {
        Some(last) => *last == arrow,
        None => false,
    }
}

// leaves one of each arrow, where there are many
fn tidy(arrows: &mut Vec<Arrow>) -> Result<(), AllocError>
    ensures { OnOk result (HasSame arrows.new.items arrows.old.items) }
{
    if arrows.len() < MOST_GATHERED {
        return Ok(());
    }
    arrange_arrows(arrows);
    room_for_arrows(arrows.as_slice())
}

// adds an arrow
fn push_arrow(arrow: Arrow, arrows: &mut Vec<Arrow>) -> Result<(), AllocError>
    ensures { OnOk result (HasSame arrows.new.items (arrows.old.items ++ arrow ∷ [])) }
{
    arrows.push(arrow)?;
    tidy(arrows)?;
    Ok(())
}

// adds an arrow, if its nodes stand among these, which ascend
fn push_drawn(shown: &[Node], arrow: Arrow, arrows: &mut Vec<Arrow>) -> Result<(), AllocError>
    requires { IsSorted node_cmp shown.now }
    ensures { OnOk result (HasSame arrows.new.items (arrows.old.items ++ drawn_arrows shown.now arrow)) }
{
    if is_drawn(shown, arrow) {
        push_arrow(arrow, arrows)?;
        Ok(())
    } else {
        Ok(())
    }
}

/// Adds an arrow, if its nodes stand among these, which ascend.
pub(crate) fn add_arrow(
    shown: &[Node],
    arrow: Arrow,
    arrows: &mut Vec<Arrow>,
) -> Result<(), AllocError>
    requires { IsSorted node_cmp shown.now }
    ensures { OnOk result (HasSame arrows.new.items (arrows.old.items ++ drawn_arrows shown.now arrow)) }
{
    if is_last_arrow(arrows.as_slice(), arrow) {
        return Ok(());
    }
    push_drawn(shown, arrow, arrows)
}
