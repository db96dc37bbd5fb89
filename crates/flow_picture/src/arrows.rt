// The arrows along which values move, and those on the ways of faults.
ghost use Rattle.std.specs.Prelude.{◌≡◌, ◌++◌, IfOk, OnOk};
ghost use Rattle.std.specs.List.{flat_map};
ghost use Rattle.std.specs.List.Sorted.{IsSorted, IsStrictlySortedBy};
ghost use Rattle.flow_rules.specs.Faults.{span_cmp};
ghost use Rattle.flow_picture.specs.Arrows.{arrow_cmp};
ghost use Rattle.flow_picture.specs.Kept as kept;
ghost use Rattle.flow_picture.specs.Nodes.{node_cmp};

use crate::arrow::{Arrow, arrow_of};
use crate::gathering::add_arrow;
use crate::node::Node;
use crate::order::arrange_arrows;
use crate::search::has_span;
use crate::steps::steps_of;
use flow_rules::FlowFault;
use pt_base::{Edge, Span};
use std::alloc::{AllocError, Global};

// the arrows of edges, by the nodes of all slots, between those that are shown
fn arrows_in(
    alloc: Global,
    nodes: &[Node],
    shown: &[Node],
    edges: &[Edge],
) -> Result<Vec<Arrow>, AllocError>
    requires { IsSorted node_cmp shown.now }
    ensures { IfOk result (λ v. kept.HasSame v.items (flat_map (kept.edge_arrows nodes.now shown.now) edges.now)) }
{
    let mut arrows = Vec::new(alloc);
    for edge in edges {
        add_arrow(shown, arrow_of(nodes, *edge), &mut arrows)?;
    }
    Ok(arrows)
}

/// The arrows of edges in order, by the nodes of all slots, between those that are shown.
pub(crate) fn arrows_of(
    alloc: Global,
    nodes: &[Node],
    shown: &[Node],
    edges: &[Edge],
) -> Result<Vec<Arrow>, AllocError>
    requires { IsSorted node_cmp shown.now }
    ensures sorted { IfOk result (λ v. IsStrictlySortedBy arrow_cmp v.items) }
    ensures same { IfOk result (λ v. kept.HasSame v.items (flat_map (kept.edge_arrows nodes.now shown.now) edges.now)) }
{
    let mut arrows = arrows_in(alloc, nodes, shown, edges)?;
    arrange_arrows(&mut arrows);
    Ok(arrows)
}

// adds the arrow of an edge, if its value is one of these steps
fn add_way(
    nodes: &[Node],
    shown: &[Node],
    steps: &[Span],
    edge: Edge,
    ways: &mut Vec<Arrow>,
) -> Result<(), AllocError>
    requires shown { IsSorted node_cmp shown.now }
    requires steps { IsSorted span_cmp steps.now }
    ensures { OnOk result (kept.HasSame ways.new.items (ways.old.items ++ kept.way_arrows nodes.now shown.now steps.now edge)) }
{
    if has_span(steps, edge.span) {
        add_arrow(shown, arrow_of(nodes, edge), ways)?;
        Ok(())
    } else {
        Ok(())
    }
}

// the arrows of those edges of which the values are among these steps
fn ways_in(
    alloc: Global,
    nodes: &[Node],
    shown: &[Node],
    steps: &[Span],
    edges: &[Edge],
) -> Result<Vec<Arrow>, AllocError>
    requires shown { IsSorted node_cmp shown.now }
    requires steps { IsSorted span_cmp steps.now }
    ensures { IfOk result (λ v. kept.HasSame v.items (flat_map (kept.way_arrows nodes.now shown.now steps.now) edges.now)) }
{
    let mut ways = Vec::new(alloc);
    for edge in edges {
        add_way(nodes, shown, steps, *edge, &mut ways)?;
    }
    Ok(ways)
}

// those arrows in order
fn ways_along(
    alloc: Global,
    nodes: &[Node],
    shown: &[Node],
    steps: &[Span],
    edges: &[Edge],
) -> Result<Vec<Arrow>, AllocError>
    requires shown { IsSorted node_cmp shown.now }
    requires steps { IsSorted span_cmp steps.now }
    ensures sorted { IfOk result (λ v. IsStrictlySortedBy arrow_cmp v.items) }
    ensures same { IfOk result (λ v. kept.HasSame v.items (flat_map (kept.way_arrows nodes.now shown.now steps.now) edges.now)) }
{
    let mut ways = ways_in(alloc, nodes, shown, steps, edges)?;
    arrange_arrows(&mut ways);
    Ok(ways)
}

/// The arrows in order that are on the way of one of these faults, by the nodes of all slots, between those that
/// are shown.
pub(crate) fn ways_of(
    alloc: Global,
    nodes: &[Node],
    shown: &[Node],
    edges: &[Edge],
    faults: &[FlowFault],
) -> Result<Vec<Arrow>, AllocError>
    requires { IsSorted node_cmp shown.now }
    ensures sorted { IfOk result (λ v. IsStrictlySortedBy arrow_cmp v.items) }
    ensures same { IfOk result (λ v. kept.HasSame v.items (flat_map (kept.way_arrows nodes.now shown.now (kept.told_steps faults.now)) edges.now)) }
{
    let steps = steps_of(alloc, faults)?;
    let ways = ways_along(alloc, nodes, shown, steps.as_slice(), edges)?;
    Ok(ways)
}
