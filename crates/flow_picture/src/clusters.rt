// The clusters of both halves.
ghost use Rattle.std.specs.Prelude.{◌≡◌, ◌++◌, OnOk};
ghost use Rattle.std.specs.List.{flat_map};
ghost use Rattle.std.specs.List.Sorted.{IsSorted};
ghost use Rattle.typed_tree.specs.TypedView.{view_typed};
ghost use Rattle.flow_picture.specs.Nodes.{node_cmp};
ghost use Rattle.flow_picture.specs.PictureText as is;

use crate::functions::is_monitors;
use crate::node::Node;
use crate::node_lines::push_node;
use crate::shown::are_many;
use reach::Half;
use source_places::push_number;
use stages::room_for;
use std::alloc::AllocError;
use typed_tree::Typed;

// whether a node stands in the cluster of a half
fn stands_in(t: &Typed, half: Half, node: Node) -> bool
    ensures { result ≡ is.stands_in (view_typed t.now) half node }
{
    match half {
        Half::Monitor => is_monitors(t, node),
        Half::Slave => !is_monitors(t, node),
    }
}

fn half_name(half: Half) -> &'static str
    ensures { result.now ≡ is.half_name half }
{
    match half {
        Half::Monitor => "monitor",
        Half::Slave => "slave",
    }
}

// appends the line of a node, if it stands in the half
fn push_half_node(
    t: &Typed,
    secrets: &[Node],
    seeds: &[Node],
    half: Half,
    node: Node,
    text: &mut Vec<u8>,
) -> Result<(), AllocError>
    requires secrets { IsSorted node_cmp secrets.now }
    requires seeds { IsSorted node_cmp seeds.now }
    ensures { OnOk result (text.new.items ≡ text.old.items ++ is.half_line (view_typed t.now) secrets.now seeds.now half node) }
{
    if stands_in(t, half, node) {
        push_node(t, secrets, seeds, node, text)
    } else {
        Ok(())
    }
}

// appends the lines of those of these nodes that stand in the half
fn push_half_nodes(
    t: &Typed,
    secrets: &[Node],
    seeds: &[Node],
    shown: &[Node],
    half: Half,
    text: &mut Vec<u8>,
) -> Result<(), AllocError>
    requires secrets { IsSorted node_cmp secrets.now }
    requires seeds { IsSorted node_cmp seeds.now }
    ensures { OnOk result (text.new.items ≡ text.old.items ++ flat_map (is.half_line (view_typed t.now) secrets.now seeds.now half) shown.now) }
{
    for node in shown {
        push_half_node(t, secrets, seeds, half, *node, text)?;
        room_for(text.as_slice())?;
    }
    Ok(())
}

// appends how a cluster begins
fn push_cluster_head(half: Half, text: &mut Vec<u8>) -> Result<(), AllocError>
    ensures { OnOk result (text.new.items ≡ text.old.items ++ is.cluster_head half) }
{
    text.extend_from_slice(b"  subgraph cluster_")?;
    text.extend_from_slice(half_name(half).as_bytes())?;
    text.extend_from_slice(b" {\n    label=\"")?;
    text.extend_from_slice(half_name(half).as_bytes())?;
    text.extend_from_slice(b"\";\n")?;
    Ok(())
}

// appends the cluster of a half
fn push_cluster(
    t: &Typed,
    secrets: &[Node],
    seeds: &[Node],
    shown: &[Node],
    half: Half,
    text: &mut Vec<u8>,
) -> Result<(), AllocError>
    requires secrets { IsSorted node_cmp secrets.now }
    requires seeds { IsSorted node_cmp seeds.now }
    ensures { OnOk result (text.new.items ≡ text.old.items ++ is.cluster_text (view_typed t.now) secrets.now seeds.now shown.now half) }
{
    push_cluster_head(half, text)?;
    push_half_nodes(t, secrets, seeds, shown, half, text)?;
    text.extend_from_slice(b"  }\n")?;
    Ok(())
}

// appends that of so many objects not all are shown, where that is so
fn push_note(count: usize, text: &mut Vec<u8>) -> Result<(), AllocError>
    ensures { OnOk result (text.new.items ≡ text.old.items ++ is.note_text count) }
{
    if are_many(count) {
        text.extend_from_slice(b"  // only objects that may hold secrets are shown, of ")?;
        push_number(count, text)?;
        text.push(b'\n')?;
    }
    Ok(())
}

/// Appends what is drawn of objects: so many would be shown, these are, of which these, which ascend, may hold
/// secrets, and in those secrets begin.
pub(crate) fn push_objects(
    t: &Typed,
    count: usize,
    shown: &[Node],
    secrets: &[Node],
    seeds: &[Node],
    text: &mut Vec<u8>,
) -> Result<(), AllocError>
    requires secrets { IsSorted node_cmp secrets.now }
    requires seeds { IsSorted node_cmp seeds.now }
    ensures { OnOk result (text.new.items ≡ text.old.items ++ is.objects_text (view_typed t.now) count shown.now secrets.now seeds.now) }
{
    text.extend_from_slice(b"digraph flows {\n  rankdir=LR;\n  node [shape=box];\n")?;
    push_note(count, text)?;
    push_cluster(t, secrets, seeds, shown, Half::Slave, text)?;
    push_cluster(t, secrets, seeds, shown, Half::Monitor, text)?;
    Ok(())
}
