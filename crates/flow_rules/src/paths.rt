// What was found as faults, each with a way by which a secret comes there.
ghost use Rattle.std.specs.Prelude.{◌≡◌, ◌≤◌, [], true, Some, None, IfOk, length, slice_index_or};
ghost use Rattle.propagation.specs.Marks.{AreMarks};
ghost use Rattle.propagation.specs.Paths.{from_of, no_edge};
ghost use Rattle.reach.specs.Tables.{slot_number};
ghost use Rattle.flow_rules.specs.Faults.{spans_of};
ghost use Rattle.flow_rules.specs.FlowsView.{view_flows};
ghost use Rattle.flow_rules.specs.Told.{AllShownPriv, AreTold, IsShownPriv, ShowsWayTo, TellsKept, begins_at};

use crate::fault::FlowFault;
use crate::flows::Flows;
use crate::found::Found;
use pt_base::{Edge, Listed, Slot, Span};
use std::alloc::{AllocError, Global};

/// The most spans of the ways of all faults together. What has more is answered as want of memory.
pub const MOST_SPANS: usize = 67_108_864;

// Where a secret begins, and the spans of its way from there.
#[derive(Drop)]
struct Way {
    origin: Option<Slot>,
    spans: Listed<Span>,
}

// where the edge of this number begins
fn from_at(edges: &[Edge], number: u64) -> Slot
    ensures { result ≡ from_of edges.now number }
{
    match edges.get(number as usize) {
        Some(edge) => edge.from,
        None => Slot(0),
    }
}

// where the edges of these numbers begin, which lead to this slot
fn origin_of(edges: &[Edge], path: &[u64], slot: Slot) -> Slot
    ensures { result ≡ begins_at edges.now path.now slot }
{
    match path.first() {
        Some(number) => from_at(edges, *number),
        None => slot,
    }
}

// the span of the edge of this number
fn span_at(edges: &[Edge], number: u64) -> Span
    ensures { result ≡ (slice_index_or edges.now number no_edge).span }
{
    match edges.get(number as usize) {
        Some(edge) => edge.span,
        None => Span { from: 0, to: 0 },
    }
}

// the spans of the edges of these numbers
fn spans_at(alloc: Global, edges: &[Edge], path: &[u64]) -> Result<Listed<Span>, AllocError>
    ensures { IfOk result (λ spans. spans ≡ spans_of edges.now path.now) }
{
    let mut spans = Vec::with_capacity(alloc, path.len())?;
    for number in path {
        spans.push(span_at(edges, *number))?;
    }
    Ok(Listed::new(spans))
}

// the way to this slot along the edges of these numbers
fn way_along(alloc: Global, edges: &[Edge], path: &[u64], slot: u64) -> Result<Way, AllocError>
    ensures origin { IfOk result (λ way. way.origin ≡ Some (begins_at edges.now path.now (slot_number slot))) }
    ensures spans { IfOk result (λ way. way.spans ≡ spans_of edges.now path.now) }
{
    let spans = spans_at(alloc, edges, path)?;
    let origin = Some(origin_of(edges, path, Slot(slot)));
    Ok(Way { origin, spans })
}

// a way to a privileged slot, if it has no more spans than there is room for
fn way_to(
    alloc: Global,
    flows: &Flows<'_>,
    edges: &[Edge],
    slot: u64,
    room: usize,
) -> Result<Way, AllocError>
    requires marks { AreMarks flows.now.sides.now.seeds edges.now (length flows.now.sides.now.slots) flows.now.marks.now }
    requires secret { (view_flows flows.now).is_priv slot ≡ true }
    ensures way { IfOk result (λ way. ShowsWayTo flows.now.sides.now.seeds edges.now way.origin way.spans (Some slot)) }
    ensures few { IfOk result (λ way. length way.spans ≤ room) }
{
    let shown = flows.marks.path_to(alloc, Slot(slot))?;
    let Some(path) = shown else { unreachable!() };
    if path.len() > room {
        return Err(AllocError);
    }
    let numbers = path.as_slice();
    let way = way_along(alloc, edges, numbers, slot)?;
    Ok(way)
}

// no way, where there is no secret
fn no_way(alloc: Global) -> Way
    ensures origin { result.origin ≡ None }
    ensures spans { result.spans ≡ [] }
{
    Way {
        origin: None,
        spans: Listed::new(Vec::new(alloc)),
    }
}

// a way to what is broken here
fn way_of(
    alloc: Global,
    flows: &Flows<'_>,
    edges: &[Edge],
    slot: Option<u64>,
    room: usize,
) -> Result<Way, AllocError>
    requires marks { AreMarks flows.now.sides.now.seeds edges.now (length flows.now.sides.now.slots) flows.now.marks.now }
    requires secret { IsShownPriv (view_flows flows.now) slot }
    ensures way { IfOk result (λ way. ShowsWayTo flows.now.sides.now.seeds edges.now way.origin way.spans slot) }
    ensures few { IfOk result (λ way. length way.spans ≤ room) }
{
    match slot {
        Some(slot) => way_to(alloc, flows, edges, slot, room),
        None => Ok(no_way(alloc)),
    }
}

// what was found, as a fault
fn fault_of(
    alloc: Global,
    flows: &Flows<'_>,
    edges: &[Edge],
    found: Found,
    room: usize,
) -> Result<FlowFault, AllocError>
    requires marks { AreMarks flows.now.sides.now.seeds edges.now (length flows.now.sides.now.slots) flows.now.marks.now }
    requires secret { IsShownPriv (view_flows flows.now) found.slot }
    ensures told { IfOk result (λ x. TellsKept flows.now.sides.now.seeds edges.now found x) }
    ensures few { IfOk result (λ x. length x.path ≤ room) }
{
    let way = way_of(alloc, flows, edges, found.slot, room)?;
    Ok(FlowFault {
        rule: found.rule,
        span: found.span,
        origin: way.origin,
        path: way.spans,
    })
}

/// What was found as faults, one after the other. Whether there is room for the spans of a way is asked
/// before they are gathered.
pub(crate) fn faults_of(
    alloc: Global,
    flows: &Flows<'_>,
    edges: &[Edge],
    list: &[Found],
) -> Result<Vec<FlowFault>, AllocError>
    requires marks { AreMarks flows.now.sides.now.seeds edges.now (length flows.now.sides.now.slots) flows.now.marks.now }
    requires secret { AllShownPriv (view_flows flows.now) list.now }
    ensures { IfOk result (λ v. AreTold flows.now.sides.now.seeds edges.now list.now v.items) }
{
    let mut faults = Vec::new(alloc);
    let mut room = MOST_SPANS;
    for found in list {
        let fault = fault_of(alloc, flows, edges, *found, room)?;
        room -= fault.path.as_slice().len();
        faults.push(fault)?;
    }
    Ok(faults)
}
