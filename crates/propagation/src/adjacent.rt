// The edges from each slot, side by side.
ghost use Rattle.std.specs.Prelude.{◌≡◌, ◌+◌, ◌<◌, ◌^◌, IfOk, All, length};
ghost use Rattle.propagation.specs.Adjacent.{AreAdjacent, AreEnds, end_of, link_at, start_of};

use pt_base::{Edge, Slot};
use std::alloc::{AllocError, Global};

/// An edge from a slot: the slot to which it leads, and its number.
#[derive(Clone, Copy)]
pub struct Link {
    pub to: u32,
    pub edge: u32,
}

/// The edges from each slot: those from the slot `s` are the links from `starts[s]` on and before
/// `starts[s + 1]`, the last edge first. They lie side by side, since a walk that had to look for each edge
/// at another place of memory would mostly wait. Four bytes for each slot and eight for each edge.
#[derive(Drop)]
pub struct Adjacent {
    pub starts: Vec<u32>,
    pub links: Vec<Link>,
}

impl Adjacent {
    /// Where the slot's links begin.
    pub fn start(&self, s: Slot) -> u32
        requires { s.0 < length self.now.starts.items }
        ensures { result ≡ start_of self.now s }
    {
        self.starts[s.0 as usize]
    }

    /// Before which place the slot's links end.
    pub fn end(&self, s: Slot) -> u32
        requires { s.0 + 1 < length self.now.starts.items }
        ensures { result ≡ end_of self.now s }
    {
        self.starts[s.0 as usize + 1]
    }

    /// The link at this place.
    pub fn link(&self, at: u32) -> Link
        requires { at < length self.now.links.items }
        ensures { result ≡ link_at self.now at }
    {
        self.links[at as usize]
    }
}

// where each slot's links end, if the slots' links stand one after the other
fn ends_of(alloc: Global, edges: &[Edge], slots: usize) -> Result<Vec<u32>, AllocError>
    requires slots { slots < 2 ^ 32 }
    requires few { length edges.now < 2 ^ 32 }
    requires froms { All (λ e. e.from.0 < slots) edges.now }
    ensures { IfOk result (λ ends. AreEnds edges.now slots ends.items) }
{
    let mut ends: Vec<u32> = vec![in alloc; 0; slots + 1]?;
    for e in edges {
        ends[e.from.0 as usize] += 1;
    }
    let mut total = 0;
    for s in 0..slots + 1 {
        total += ends[s];
        ends[s] = total;
    }
    Ok(ends)
}

/// Puts the edges from each slot side by side, by counting them. More than 2^32 - 1 edges are want of
/// memory.
pub fn adjacent_of(alloc: Global, edges: &[Edge], slots: usize) -> Result<Adjacent, AllocError>
    requires slots { slots < 2 ^ 32 }
    requires froms { All (λ e. e.from.0 < slots) edges.now }
    requires tos { All (λ e. e.to.0 < slots) edges.now }
    ensures { IfOk result (λ a. AreAdjacent edges.now slots a) }
{
    if edges.len() > u32::MAX as usize {
        return Err(AllocError);
    }
    let mut starts = ends_of(alloc, edges, slots)?;
    let mut links = vec![in alloc; Link { to: 0, edge: 0 }; edges.len()]?;
    for (k, e) in edges.iter().enumerate() {
        let from = e.from.0 as usize;
        let at = starts[from] - 1;
        let to = e.to.0 as u32;
        let edge = k as u32;
        links[at as usize] = Link { to, edge };
        starts[from] = at;
    }
    Ok(Adjacent { starts, links })
}
