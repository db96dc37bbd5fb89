// Arrows between nodes.
ghost use Rattle.std.specs.Prelude.{◌≡◌};
ghost use Rattle.std.specs.List.Sorted.{IsSorted};
ghost use Rattle.flow_picture.specs.Kept as kept;
ghost use Rattle.flow_picture.specs.Nodes.{node_cmp};

use crate::node::Node;
use crate::search::has_node;
use pt_base::{Edge, Slot};

/// From one node to another one. Arrows are ordered by both.
#[derive(Clone, Copy, PartialEq, Eq, PartialOrd, Ord)]
pub(crate) struct Arrow {
    pub from: Node,
    pub to: Node,
}

/// The node of a slot, by the nodes of all slots.
pub(crate) fn node_in(nodes: &[Node], slot: Slot) -> Node
    ensures { result ≡ kept.node_in nodes.now slot.0 }
{
    match nodes.get(slot.0 as usize) {
        Some(node) => *node,
        None => Node::Result(0),
    }
}

/// The arrow along which an edge leads, by the nodes of all slots.
pub(crate) fn arrow_of(nodes: &[Node], edge: Edge) -> Arrow
    ensures { result ≡ kept.arrow_of nodes.now edge }
{
    Arrow {
        from: node_in(nodes, edge.from),
        to: node_in(nodes, edge.to),
    }
}

/// Whether both nodes of an arrow stand among these, which ascend.
pub(crate) fn is_drawn(shown: &[Node], arrow: Arrow) -> bool
    requires { IsSorted node_cmp shown.now }
    ensures { result ≡ kept.is_drawn shown.now arrow }
{
    has_node(shown, arrow.from) && has_node(shown, arrow.to)
}
