// The whole picture of a program.
ghost use Rattle.std.specs.Prelude.{◌≡◌, ◌++◌, IfOk, OnOk, codes, length};
ghost use Rattle.std.specs.List.Sorted.{IsSorted};
ghost use Rattle.source_places.specs.LinesSeen.{text_of};
ghost use Rattle.typed_tree.specs.TypedView.{view_typed};
ghost use Rattle.flow_picture.specs.Arrows.{arrow_cmp};
ghost use Rattle.flow_picture.specs.Kept.{AreObjects, node_in};
ghost use Rattle.flow_picture.specs.Nodes.{node_cmp};
ghost use Rattle.flow_picture.specs.Objects.{shown_of};
ghost use Rattle.flow_picture.specs.Pictures.{IsPicture};
ghost use Rattle.flow_picture.specs.PictureText as is;

use crate::arrow::Arrow;
use crate::arrow_lines::push_arrows;
use crate::arrows::{arrows_of, ways_of};
use crate::clusters::push_objects;
use crate::fault_nodes::push_faults;
use crate::node::Node;
use crate::objects::Objects;
use crate::shown::shown_of;
use flow_rules::FlowFault;
use pt_base::Edge;
use source_places::Lines;
use stages::room_for;
use std::alloc::{AllocError, Global};
use typed_tree::Typed;

// appends arrows and faults
fn push_flows(
    lines: &Lines<'_>,
    nodes: &[Node],
    shown: &[Node],
    arrows: &[Arrow],
    ways: &[Arrow],
    faults: &[FlowFault],
    text: &mut Vec<u8>,
) -> Result<(), AllocError>
    requires shown { IsSorted node_cmp shown.now }
    requires ways { IsSorted arrow_cmp ways.now }
    ensures { OnOk result (text.new.items ≡ text.old.items ++ is.flows_text (text_of lines.now) (node_in nodes.now) shown.now arrows.now ways.now faults.now) }
{
    push_arrows(arrows, ways, text)?;
    push_faults(lines, nodes, shown, faults, text)
}

// appends the end
fn push_end(text: &mut Vec<u8>) -> Result<(), AllocError>
    ensures { OnOk result (text.new.items ≡ text.old.items ++ codes "}\n") }
{
    text.extend_from_slice(b"}\n")?;
    room_for(text.as_slice())
}

// the text of a picture
fn text_in(
    alloc: Global,
    lines: &Lines<'_>,
    t: &Typed,
    objects: &Objects,
    shown: &[Node],
    arrows: &[Arrow],
    ways: &[Arrow],
    faults: &[FlowFault],
) -> Result<Vec<u8>, AllocError>
    requires shown { IsSorted node_cmp shown.now }
    requires secrets { IsSorted node_cmp objects.now.secrets.items }
    requires seeds { IsSorted node_cmp objects.now.seeds.items }
    requires ways { IsSorted arrow_cmp ways.now }
    ensures { IfOk result (λ v. v.items ≡ is.picture_text (text_of lines.now) (node_in objects.now.nodes.items) (view_typed t.now) (length objects.now.all.items) shown.now objects.now.secrets.items objects.now.seeds.items arrows.now ways.now faults.now) }
{
    let mut text = Vec::new(alloc);
    let secrets = objects.secrets.as_slice();
    let seeds = objects.seeds.as_slice();
    push_objects(t, objects.all.len(), shown, secrets, seeds, &mut text)?;
    push_flows(
        lines,
        objects.nodes.as_slice(),
        shown,
        arrows,
        ways,
        faults,
        &mut text,
    )?;
    push_end(&mut text)?;
    Ok(text)
}

// the picture of a program in which these are shown
fn picture_in(
    alloc: Global,
    program: &[u8],
    t: &Typed,
    objects: &Objects,
    shown: &[Node],
    edges: &[Edge],
    faults: &[FlowFault],
) -> Result<Vec<u8>, AllocError>
    requires objects { AreObjects (view_typed t.now) edges.now objects.now }
    requires shown { shown.now ≡ shown_of objects.now.all.items objects.now.secrets.items }
    ensures { IfOk result (λ v. IsPicture program.now (view_typed t.now) faults.now v.items) }
{
    let nodes = objects.nodes.as_slice();
    let arrows = arrows_of(alloc, nodes, shown, edges)?;
    let ways = ways_of(alloc, nodes, shown, edges, faults)?;
    let lines = Lines::new(alloc, program)?;
    let text = text_in(
        alloc,
        &lines,
        t,
        objects,
        shown,
        arrows.as_slice(),
        ways.as_slice(),
        faults,
    )?;
    Ok(text)
}

/// The picture of a program with these edges and faults. Time is linear in the text, in its edges and in what is
/// written, but for putting arrows in order and finding nodes.
pub(crate) fn draw(
    alloc: Global,
    program: &[u8],
    t: &Typed,
    objects: &Objects,
    edges: &[Edge],
    faults: &[FlowFault],
) -> Result<Vec<u8>, AllocError>
    requires { AreObjects (view_typed t.now) edges.now objects.now }
    ensures { IfOk result (λ v. IsPicture program.now (view_typed t.now) faults.now v.items) }
{
    let all = objects.all.as_slice();
    let shown = shown_of(alloc, all, objects.secrets.as_slice())?;
    picture_in(alloc, program, t, objects, shown.as_slice(), edges, faults)
}
