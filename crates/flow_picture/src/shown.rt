// Which objects are shown.
ghost use Rattle.std.specs.Prelude.{◌≡◌, ◌++◌, IfOk, OnOk};
ghost use Rattle.std.specs.List.{filter};
ghost use Rattle.std.specs.List.Sorted.{IsSorted};
ghost use Rattle.reach.specs.Tables.{item_if};
ghost use Rattle.flow_picture.specs.Nodes.{is_in, node_cmp};
ghost use Rattle.flow_picture.specs.Objects as is;

use crate::node::Node;
use crate::room::MOST_NODES;
use crate::search::has_node;
use std::alloc::{AllocError, Global};

/// Whether so many objects aren't all shown.
pub(crate) fn are_many(count: usize) -> bool
    ensures { result ≡ is.are_many count }
{
    MOST_NODES < count
}

// appends a node, if it stands among these
fn push_if_secret(secrets: &[Node], node: Node, shown: &mut Vec<Node>) -> Result<(), AllocError>
    requires { IsSorted node_cmp secrets.now }
    ensures { OnOk result (shown.new.items ≡ shown.old.items ++ item_if (is_in secrets.now node) node) }
{
    if has_node(secrets, node) {
        shown.push(node)?;
    }
    Ok(())
}

// those of the objects that may hold secrets
fn secret_objects(
    alloc: Global,
    objects: &[Node],
    secrets: &[Node],
) -> Result<Vec<Node>, AllocError>
    requires { IsSorted node_cmp secrets.now }
    ensures { IfOk result (λ v. v.items ≡ filter (is_in secrets.now) objects.now) }
{
    let mut shown = Vec::new(alloc);
    for node in objects {
        push_if_secret(secrets, *node, &mut shown)?;
    }
    Ok(shown)
}

/// The objects that are shown.
pub(crate) fn shown_of(
    alloc: Global,
    objects: &[Node],
    secrets: &[Node],
) -> Result<Vec<Node>, AllocError>
    requires { IsSorted node_cmp secrets.now }
    ensures { IfOk result (λ v. v.items ≡ is.shown_of objects.now secrets.now) }
{
    if are_many(objects.len()) {
        secret_objects(alloc, objects, secrets)
    } else {
        Vec::from_slice(alloc, objects)
    }
}
