// Objects as nodes.
ghost use Rattle.std.specs.Prelude.{◌≡◌, ◌++◌, IfOk, OnOk};
ghost use Rattle.flow_picture.specs.Nodes as is;

use pt_base::{FnId, GlobalId, VarId};
use sides::{Owner, SlotInfo};
use source_places::push_number;
use std::alloc::{AllocError, Global};

/// An object, by the numbers of the typed tree. Nodes are ordered by kind, and those of a kind by number.
#[derive(Clone, Copy, PartialEq, Eq, PartialOrd, Ord)]
pub(crate) enum Node {
    Global(u32),
    /// A variable of a function.
    Variable { function: u32, var: u32 },
    /// What a function or host returns.
    Result(u32),
}

/// The node of what a slot is a part of.
pub(crate) fn node_of(owner: Owner) -> Node
    ensures { result ≡ is.node_of owner }
{
    match owner {
        Owner::Variable { function, var } => Node::Variable {
            function: function.0,
            var: var.0,
        },
        Owner::Global(global) => Node::Global(global.0),
        Owner::Result(function) => Node::Result(function.0),
    }
}

/// What this is the node of.
pub(crate) fn owner_of(node: Node) -> Owner
    ensures { result ≡ is.owner_of node }
{
    match node {
        Node::Global(global) => Owner::Global(GlobalId(global)),
        Node::Variable { function, var } => Owner::Variable {
            function: FnId(function),
            var: VarId(var),
        },
        Node::Result(function) => Owner::Result(FnId(function)),
    }
}

/// For each slot the node of what it is a part of.
pub(crate) fn nodes_of(alloc: Global, slots: &[SlotInfo]) -> Result<Vec<Node>, AllocError>
    ensures { IfOk result (λ v. v.items ≡ is.nodes_of slots.now) }
{
    let mut nodes = Vec::with_capacity(alloc, slots.len())?;
    for slot in slots {
        nodes.push(node_of(slot.owner))?;
    }
    Ok(nodes)
}

/// Appends the name of a node.
pub(crate) fn push_name(node: Node, text: &mut Vec<u8>) -> Result<(), AllocError>
    ensures { OnOk result (text.new.items ≡ text.old.items ++ is.name_of node) }
{
    match node {
        Node::Global(global) => {
            text.push(b'g')?;
            push_number(global as usize, text)
        }
        Node::Variable { function, var } => {
            text.push(b'v')?;
            push_number(function as usize, text)?;
            text.push(b'_')?;
            push_number(var as usize, text)
        }
        Node::Result(function) => {
            text.push(b'r')?;
            push_number(function as usize, text)
        }
    }
}
