// The edges of a value that moves.
ghost use Rattle.std.specs.Prelude.{◌≡◌, ◌*◌, ◌++◌, IfOk, IfSome, OnOk, if◌then◌else◌, length};
ghost use Rattle.flow_edges.specs.MoveView.{moved_edges, view_move};
ghost use Rattle.flow_edges.specs.Moves.{edge_between, edges_between, edges_from, leaf_edges, move_edges};

use crate::slot_numbers::behind;
use pt_base::{Edge, Slot, Span};
use std::alloc::AllocError;

/// A value that moves: from the slots that it carries to others, each by that of its first leaf.
#[derive(Drop)]
pub struct Move {
    /// The slots that it carries.
    pub from: Vec<u64>,
    /// Where it goes.
    pub to: Vec<u64>,
    /// How many leaves it has.
    pub leaves: u64,
    /// It is a pointer: what it points to may move back too.
    pub back: bool,
    /// Where it stands in the text.
    pub span: Span,
}

// from one slot to another
fn edge_between(span: Span, from: u64, to: u64) -> Edge
    ensures { result ≡ edge_between span from to }
{
    Edge {
        from: Slot(from),
        to: Slot(to),
        span,
    }
}

impl Move {
    // from one slot to another, and then back
    fn add_between(&self, from: u64, to: u64, edges: &mut Vec<Edge>) -> Result<(), AllocError>
        ensures { OnOk result (edges.new.items ≡ edges.old.items ++ edges_between (view_move self.now) from to) }
    {
        edges.push(edge_between(self.span, from, to))?;
        if self.back {
            edges.push(edge_between(self.span, to, from))?;
        }
        Ok(())
    }

    // from a leaf of what begins at this slot
    fn add_from(&self, leaf: u64, from: u64, edges: &mut Vec<Edge>) -> Result<(), AllocError>
        ensures { OnOk result (edges.new.items ≡ edges.old.items ++ edges_from (view_move self.now) leaf from) }
    {
        let source = behind(from, leaf)?;
        for to in &self.to {
            let target = behind(*to, leaf)?;
            self.add_between(source, target, edges)?;
        }
        Ok(())
    }

    // of one leaf
    fn add_leaf(&self, leaf: u64, edges: &mut Vec<Edge>) -> Result<(), AllocError>
        ensures { OnOk result (edges.new.items ≡ edges.old.items ++ leaf_edges (view_move self.now) leaf) }
    {
        for from in &self.from {
            self.add_from(leaf, *from, edges)?;
        }
        Ok(())
    }

    /// Adds its edges, leaf by leaf.
    pub(crate) fn add_leaves(&self, edges: &mut Vec<Edge>) -> Result<(), AllocError>
        ensures { OnOk result (edges.new.items ≡ edges.old.items ++ move_edges (view_move self.now)) }
    {
        for leaf in 0..self.leaves {
            self.add_leaf(leaf, edges)?;
        }
        Ok(())
    }

    /// How many edges it has; more than 64 bits can say are want of memory.
    pub(crate) fn count(&self) -> Result<u64, AllocError>
        ensures { IfOk result (λ n. n ≡ length (move_edges (view_move self.now))) }
    {
        match self.product() {
            Some(count) => Ok(count),
            None => Err(AllocError),
        }
    }

    // how many edges it has, if 64 bits can say it
    fn product(&self) -> Option<u64>
        ensures { IfSome result (λ n. n ≡ length self.now.from.items * length self.now.to.items * self.now.leaves * (if self.now.back then 2 else 1)) }
    {
        let pairs = (self.from.len() as u64).checked_mul(self.to.len() as u64)?;
        let ways = pairs.checked_mul(self.leaves)?;
        if self.back {
            ways.checked_mul(2)
        } else {
            Some(ways)
        }
    }

    /// Is put behind others, if it has edges. A value that carries nothing has none, however many leaves it
    /// has.
    pub fn add_to(self, moves: &mut Vec<Move>) -> Result<(), AllocError>
        ensures { OnOk result (moved_edges moves.new.items ≡ moved_edges moves.old.items ++ move_edges (view_move self)) }
    {
        if self.from.is_empty() || self.to.is_empty() {
            return Ok(());
        }
        moves.push(self)?;
        Ok(())
    }
}
