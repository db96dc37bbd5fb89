// The marks of all privileged slots, each with a path that shows why.
ghost use Rattle.std.specs.Prelude.{◌≡◌, ◌<◌, ℕ, List, IfOk, IsTrue, ◌↔◌, MatchOption, is_some, length, All};
ghost use Rattle.std.specs.Option.{option_map};
ghost use Rattle.pt_base.specs.declared.slot.Slot.{Slot};
ghost use Rattle.pt_base.specs.declared.slot.Edge.{Edge};
ghost use Rattle.propagation.specs.Paths.{IsPriv, IsShortestPath};
ghost use Rattle.propagation.specs.Marks.{AreMarks, path_shown};

use crate::adjacent::adjacent_of;
use crate::reached::Reached;
use pt_base::{Edge, Slot};
use std::alloc::{AllocError, Global};
use std::marker::Model;

/// The privileged slots. Contracts see, for each slot in order, the path of edge numbers that is
/// shown for it, and `None` where it isn't privileged.
#[derive(Drop)]
pub struct Marks {
    reached: Reached,
}

impl Model for Marks {
    ghost use Rattle.std.specs.Prelude.{List, Option, ℕ};
    ghost use Rattle.propagation.specs.Shown.{paths_shown};

    ghost Value = { List (Option (List ℕ)) };

    ghost view = { λ m. paths_shown m.reached.places.items m.reached.order.items };
}

impl Marks {
    /// Whether the slot is privileged: a path of edges leads to it from a seed.
    pub fn is_priv(&self, s: Slot) -> bool
        requires { s.0 < length self.now }
        ensures shown { result ≡ is_some (path_shown self.now s) }
        ensures exact { (seeds : List Slot) (edges : List Edge) (slots : ℕ) →
            AreMarks seeds edges slots self.now → (IsTrue result ↔ IsPriv seeds edges s) }
    {
        self.reached.place(s).is_some()
    }

    /// The numbers of edges that lead to the slot from a seed, in order, as few as there can be;
    /// `None` where it isn't privileged.
    pub fn path_to(&self, alloc: Global, s: Slot) -> Result<Option<Vec<u64>>, AllocError>
        requires { s.0 < length self.now }
        ensures shown { IfOk result (λ o.
            option_map (λ path. path.items) o ≡ path_shown self.now s) }
        ensures exact { IfOk result (λ o. (seeds : List Slot) (edges : List Edge) (slots : ℕ) →
            AreMarks seeds edges slots self.now →
            MatchOption o (¬ IsPriv seeds edges s) (λ path. IsShortestPath seeds edges path.items s)) }
    {
        let Some(place) = self.reached.place(s) else {
            return Ok(None);
        };
        Ok(Some(self.reached.path(alloc, place)?))
    }
}

/// Marks every slot to which a path of edges leads from a seed. The slots are numbered from 0 and
/// below `slots`. Time and memory are linear in the slots, the seeds and the edges: 29 bytes for each
/// slot and eight for each edge. More than 2^32 - 1 slots or edges are want of memory.
pub fn propagate(
    alloc: Global,
    seeds: &[Slot],
    edges: &[Edge],
    slots: u64,
) -> Result<Marks, AllocError>
    requires seeds { All (λ s. s.0 < slots) seeds.now }
    requires froms { All (λ e. e.from.0 < slots) edges.now }
    requires tos { All (λ e. e.to.0 < slots) edges.now }
    ensures { IfOk result (λ m. AreMarks seeds.now edges.now slots m) }
{
    if slots > u64::from(u32::MAX) {
        return Err(AllocError);
    }
    let adjacent = adjacent_of(alloc, edges, slots as usize)?;
    let mut reached = Reached::new(alloc, slots as usize)?;
    reached.seed(seeds)?;
    let mut next: u32 = 0;
    while (next as usize) < reached.order.len() {
        reached.visit(&adjacent, next)?;
        next += 1;
    }
    Ok(Marks { reached })
}
