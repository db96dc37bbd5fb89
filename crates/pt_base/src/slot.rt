// What the flow rules speak of: places for values, and the ways between them.
use crate::Span;

/// A place that a value can lie in: a variable or a function's result with a field path, numbered
/// from 0. The elements of an array share one slot.
#[derive(Clone, Copy)]
pub struct Slot(pub u64);

/// A value may go from one slot to another, by the expression that stands at `span`.
#[derive(Clone, Copy)]
pub struct Edge {
    pub from: Slot,
    pub to: Slot,
    pub span: Span,
}
