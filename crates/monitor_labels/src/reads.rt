// What expressions and places read, and what they start from.
ghost use Rattle.std.specs.Prelude.{◌≡◌, ◌<◌, ◌++◌, ◌∷◌, [], IfOk, IfSome, IsTrue, OnOk, option_map};
ghost use Rattle.std.specs.Option.{option_copied};
ghost use Rattle.pt_core.specs.declared.expression.Expr.{size-Expr};
ghost use Rattle.pt_core.specs.CodeTree.{view_expr, view_place};
ghost use Rattle.monitor_labels.specs.Arrows as arrows;
ghost use Rattle.monitor_labels.specs.Labels as labels;
ghost use Rattle.monitor_labels.specs.Nodes.{slot_of};
ghost use Rattle.monitor_labels.specs.Parts.{is_start, parts_size, reads_in, reads_left, start_in};
ghost use Rattle.monitor_labels.specs.Scopes.{IsScope, edges_back, edges_to, function_of, program_of};

use crate::parts::{Parts, parts_of, place_parts, pointer_in};
use crate::scope::Scope;
use pt_base::{Edge, Slot, Span};
use pt_core::{Expr, Place};
use std::alloc::AllocError;

// an edge, for which no expression stands
fn edge_between(from: Slot, to: Slot) -> Edge
    ensures { result ≡ labels.edge_between from to }
{
    Edge {
        from,
        to,
        span: Span { from: 0, to: 0 },
    }
}

/// Adds an edge.
pub(crate) fn add_edge(from: Slot, to: Slot, edges: &mut Vec<Edge>) -> Result<(), AllocError>
    ensures { OnOk result (edges.new.items ≡ edges.old.items ++ labels.edge_between from to ∷ []) }
{
    edges.push(edge_between(from, to))?;
    Ok(())
}

// Adds edges to a slot from what these parts read themselves and in a right operand, and gives the operand that
// is still to be read.
#[cycle(reads)]
fn add_right<'a>(
    scope: &Scope<'_>,
    parts: Parts<'a>,
    to: Slot,
    edges: &mut Vec<Edge>,
) -> Result<Option<&'a Expr>, AllocError>
    requires { IsScope scope.now }
    ensures added { IfOk result (λ o.
        edges.new.items ++ edges_to (program_of scope.now) (reads_left (function_of scope.now).id (option_copied o)) to
        ≡ edges.old.items ++ edges_to (program_of scope.now) (reads_in (function_of scope.now).id parts.entry) to) }
    ensures smaller { IfOk result (λ o. IfSome o (λ e. size-Expr e.now < parts_size parts.entry)) }
{
    match parts {
        Parts::Nothing => Ok(None),
        Parts::Variable(v) => {
            let from = scope.variable(v)?;
            add_edge(from, to, edges)?;
            Ok(None)
        }
        Parts::Global(g) => {
            let from = scope.global(g)?;
            add_edge(from, to, edges)?;
            Ok(None)
        }
        Parts::Behind(pointer) => Ok(Some(pointer)),
        Parts::One(a) => Ok(Some(a)),
        Parts::Moved(pointer, by) => {
            add_parts(scope, parts_of(by), to, edges)?;
            Ok(Some(pointer))
        }
        Parts::Two(a, b) => {
            add_parts(scope, parts_of(b), to, edges)?;
            Ok(Some(a))
        }
    }
}

// Adds edges to a slot from all that these parts read. A chain of operators to the left takes no stack, however
// long.
#[cycle(reads)]
fn add_parts(
    scope: &Scope<'_>,
    first: Parts<'_>,
    to: Slot,
    edges: &mut Vec<Edge>,
) -> Result<(), AllocError>
    requires { IsScope scope.now }
    ensures { OnOk result (edges.new.items ≡ edges.old.items ++ edges_to (program_of scope.now) (reads_in (function_of scope.now).id first.entry) to) }
{
    let mut at = first;
    while let Some(left) = add_right(scope, at, to, edges)? {
        at = parts_of(left);
    }
    Ok(())
}

/// Adds edges to a slot from all that an expression reads.
pub(crate) fn add_reads(
    scope: &Scope<'_>,
    e: &Expr,
    to: Slot,
    edges: &mut Vec<Edge>,
) -> Result<(), AllocError>
    requires { IsScope scope.now }
    ensures { OnOk result (edges.new.items ≡ edges.old.items ++ edges_to (program_of scope.now) (arrows.reads (function_of scope.now).id (view_expr e.now)) to) }
{
    add_parts(scope, parts_of(e), to, edges)
}

/// Adds edges to a slot from all that finding a place reads, that at which it begins among them.
pub(crate) fn add_place_reads(
    scope: &Scope<'_>,
    place: &Place,
    to: Slot,
    edges: &mut Vec<Edge>,
) -> Result<(), AllocError>
    requires { IsScope scope.now }
    ensures { OnOk result (edges.new.items ≡ edges.old.items ++ edges_to (program_of scope.now) (arrows.place_reads (function_of scope.now).id (view_place place.now)) to) }
{
    add_parts(scope, place_parts(place), to, edges)
}

// the node of a variable or global, where these parts are one
fn own_start(scope: &Scope<'_>, parts: Parts<'_>) -> Result<Option<Slot>, AllocError>
    requires scope { IsScope scope.now }
    requires start { IsTrue (is_start parts) }
    ensures { IfOk result (λ o. o ≡ option_map (λ n. slot_of (program_of scope.now) n) (start_in (function_of scope.now).id parts.entry)) }
{
    match parts {
        Parts::Variable(v) => Ok(Some(scope.variable(v)?)),
        Parts::Global(g) => Ok(Some(scope.global(g)?)),
        Parts::Nothing | Parts::Behind(_) | Parts::Moved(_, _) | Parts::One(_) | Parts::Two(_, _) =>
            Ok(None),
    }
}

// the node of the variable or global that these parts start from
fn start_of(scope: &Scope<'_>, first: Parts<'_>) -> Result<Option<Slot>, AllocError>
    requires { IsScope scope.now }
    ensures { IfOk result (λ o. o ≡ option_map (λ n. slot_of (program_of scope.now) n) (start_in (function_of scope.now).id first.entry)) }
{
    let mut at = first;
    while let Some(pointer) = pointer_in(at) {
        at = parts_of(pointer);
    }
    own_start(scope, at)
}

/// The node of the variable or global that a place lies in.
pub(crate) fn place_start(scope: &Scope<'_>, place: &Place) -> Result<Option<Slot>, AllocError>
    requires { IsScope scope.now }
    ensures { IfOk result (λ o. o ≡ option_map (λ n. slot_of (program_of scope.now) n) (arrows.place_start (function_of scope.now).id (view_place place.now))) }
{
    let start = start_of(scope, place_parts(place))?;
    Ok(start)
}

/// Adds an edge from a pointer's slot back to what its value starts from, where it is a pointer and the value isn't
/// null.
pub(crate) fn add_back(
    scope: &Scope<'_>,
    value: &Expr,
    pointer: bool,
    to: Slot,
    edges: &mut Vec<Edge>,
) -> Result<(), AllocError>
    requires { IsScope scope.now }
    ensures { OnOk result (edges.new.items ≡ edges.old.items ++ edges_back (program_of scope.now) pointer to (arrows.start_of (function_of scope.now).id (view_expr value.now))) }
{
    if !pointer {
        return Ok(());
    }
    match start_of(scope, parts_of(value))? {
        Some(start) => add_edge(to, start, edges),
        None => Ok(()),
    }
}
