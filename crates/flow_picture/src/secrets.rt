// The objects that may hold secrets, and those in which secrets begin.
ghost use Rattle.std.specs.Prelude.{◌≡◌, ◌++◌, ◌≤◌, ◌<◌, IfOk, OnOk, length};
ghost use Rattle.std.specs.List.{flat_map};
ghost use Rattle.propagation.specs.Marks.{AreMarks};
ghost use Rattle.sides.specs.Placed.{AreSides};
ghost use Rattle.sides.specs.Slots.{slots_of};
ghost use Rattle.typed_tree.specs.TypedView.{view_typed};
ghost use Rattle.flow_rules.specs.Faults.{edges_of_all};
ghost use Rattle.flow_picture.specs.Kept as kept;
ghost use Rattle.flow_picture.specs.Nodes.{nodes_of};
ghost use Rattle.flow_picture.specs.Objects.{AreNodes, BeginsSecret, HoldsSecret};

use crate::arrow::node_in;
use crate::functions::has_values;
use crate::gathering::add_node_if;
use crate::node::Node;
use crate::order::arrange_nodes;
use propagation::Marks;
use pt_base::Slot;
use sides::Sides;
use std::alloc::{AllocError, Global};
use typed_tree::Typed;

// whether the slot of this number, a part of this, is privileged
fn is_secret(t: &Typed, marks: &Marks, slot: usize, node: Node) -> bool
    requires { slot < length marks.now }
    ensures { result ≡ kept.is_secret (view_typed t.now) marks.now slot node }
{
    marks.is_priv(Slot(slot as u64)) && has_values(t, node)
}

// adds the node of the slot of this number, where that is privileged
fn add_secret(
    t: &Typed,
    marks: &Marks,
    slot: usize,
    node: Node,
    secrets: &mut Vec<Node>,
) -> Result<(), AllocError>
    requires { slot < length marks.now }
    ensures { OnOk result (kept.HasSame secrets.new.items (secrets.old.items ++ kept.secret_nodes (view_typed t.now) marks.now slot node)) }
{
    add_node_if(is_secret(t, marks, slot, node), node, secrets)?;
    Ok(())
}

// the nodes of privileged slots, by the nodes of all slots
fn secrets_in(
    alloc: Global,
    t: &Typed,
    marks: &Marks,
    nodes: &[Node],
) -> Result<Vec<Node>, AllocError>
    requires { length nodes.now ≤ length marks.now }
    ensures { IfOk result (λ v. kept.HasSame v.items (kept.secrets_from (view_typed t.now) marks.now 0 nodes.now)) }
{
    let mut secrets = Vec::new(alloc);
    let mut slot = 0;
    for node in nodes {
        add_secret(t, marks, slot, *node, &mut secrets)?;
        slot += 1;
    }
    Ok(secrets)
}

/// The objects that may hold secrets.
pub(crate) fn secrets_of(
    alloc: Global,
    t: &Typed,
    sides: &Sides,
    marks: &Marks,
    nodes: &[Node],
) -> Result<Vec<Node>, AllocError>
    requires nodes { nodes.now ≡ nodes_of (slots_of (view_typed t.now)) }
    requires marks { AreMarks sides.now.seeds (edges_of_all (view_typed t.now) sides.now) (length (slots_of (view_typed t.now))) marks.now }
    ensures { IfOk result (λ v. AreNodes (HoldsSecret (view_typed t.now) sides.now) v.items) }
{
    let mut secrets = secrets_in(alloc, t, marks, nodes)?;
    arrange_nodes(&mut secrets);
    Ok(secrets)
}

// adds the node of a slot
fn add_seed(t: &Typed, nodes: &[Node], slot: Slot, seeds: &mut Vec<Node>) -> Result<(), AllocError>
    ensures { OnOk result (kept.HasSame seeds.new.items (seeds.old.items ++ kept.seed_nodes (view_typed t.now) nodes.now slot)) }
{
    let node = node_in(nodes, slot);
    add_node_if(has_values(t, node), node, seeds)?;
    Ok(())
}

// the nodes of these slots, by the nodes of all slots
fn seeds_in(
    alloc: Global,
    t: &Typed,
    nodes: &[Node],
    slots: &[Slot],
) -> Result<Vec<Node>, AllocError>
    ensures { IfOk result (λ v. kept.HasSame v.items (flat_map (kept.seed_nodes (view_typed t.now) nodes.now) slots.now)) }
{
    let mut seeds = Vec::new(alloc);
    for slot in slots {
        add_seed(t, nodes, *slot, &mut seeds)?;
    }
    Ok(seeds)
}

/// The objects in which secrets begin.
pub(crate) fn seeds_of(
    alloc: Global,
    t: &Typed,
    sides: &Sides,
    nodes: &[Node],
) -> Result<Vec<Node>, AllocError>
    requires nodes { nodes.now ≡ nodes_of (slots_of (view_typed t.now)) }
    requires sides { AreSides (view_typed t.now) sides.now }
    ensures { IfOk result (λ v. AreNodes (BeginsSecret (view_typed t.now)) v.items) }
{
    let mut seeds = seeds_in(alloc, t, nodes, sides.seeds.as_slice())?;
    arrange_nodes(&mut seeds);
    Ok(seeds)
}
