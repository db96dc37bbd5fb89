// The walk along the edges: what it reaches, and the way back.
ghost use Rattle.std.specs.Prelude.{◌≡◌, ◌<◌, ◌≤◌, ◌^◌, [], List, IfOk, OnOk, length, All};
ghost use Rattle.pt_base.specs.declared.slot.Slot.{Slot};
ghost use Rattle.pt_base.specs.declared.slot.Edge.{Edge};
ghost use Rattle.propagation.specs.Adjacent.{AreAdjacent};
ghost use Rattle.propagation.specs.Levels.{AreLevels, AreRoots};
ghost use Rattle.propagation.specs.Reached.{IsParent, marked_order, marked_places, place_of, slot_at};
ghost use Rattle.propagation.specs.Shown.{path_of};
ghost use Rattle.propagation.specs.Walk.{GoesOn, HasReached, IsSound, KeepsReached, slots_of};

use crate::adjacent::Adjacent;
use crate::reached::{Found, Reached, Step};
use pt_base::{Edge, Slot};
use std::alloc::{AllocError, Global};

impl Reached {
    /// Nothing is reached yet.
    pub fn new(alloc: Global, slots: usize) -> Result<Reached, AllocError>
        ensures sound { IfOk result (λ r. (seeds : List Slot) (edges : List Edge) →
            IsSound seeds edges slots r) }
        ensures nothing { IfOk result (λ r. r.order.items ≡ []) }
    {
        let places = vec![in alloc; None; slots]?;
        let marked = vec![in alloc; false; slots]?;
        let order = Vec::with_capacity(alloc, slots)?;
        Ok(Reached {
            marked,
            places,
            order,
        })
    }

    /// Adds a slot to the reached ones, if it isn't one of them.
    fn mark(&mut self, slot: Slot, by: Option<Step>) -> Result<(), AllocError>
        requires within { slot.0 < slots_of self.old }
        requires few { slots_of self.old < 2 ^ 32 }
        requires room { length self.old.order.items ≤ slots_of self.old }
        requires parent { IsParent (length self.old.order.items) by }
        ensures places { OnOk result (self.new.places.items ≡
            marked_places self.old.places.items slot (length self.old.order.items)) }
        ensures order { OnOk result (self.new.order.items ≡
            marked_order self.old.places.items self.old.order.items slot by) }
    {
        let index = slot.0 as usize;
        if !self.marked[index] {
            let place = self.order.len() as u32;
            let slot = index as u32;
            self.order.push(Found { slot, by })?;
            self.places[index] = Some(place);
            self.marked[index] = true;
        }
        Ok(())
    }

    /// Marks the seeds.
    pub fn seed(&mut self, seeds: &[Slot]) -> Result<(), AllocError>
        requires sound { (edges : List Edge) ×
            IsSound seeds.now edges (slots_of self.old) self.old }
        requires within { All (λ s. s.0 < slots_of self.old) seeds.now }
        requires few { slots_of self.old < 2 ^ 32 }
        ensures sound { OnOk result ((edges : List Edge) →
            IsSound seeds.now edges (slots_of self.old) self.old →
            IsSound seeds.now edges (slots_of self.old) self.new) }
        ensures done { OnOk result (All (HasReached self.new) seeds.now) }
        ensures roots { OnOk result (AreRoots self.old.order.items → AreRoots self.new.order.items) }
    {
        for seed in seeds {
            self.mark(*seed, None)?;
        }
        Ok(())
    }

    // the slot that was reached at this place in the order
    fn slot(&self, place: u32) -> Slot
        requires { place < length self.now.order.items }
        ensures { result ≡ slot_at self.now.order.items place }
    {
        Slot(self.order[place as usize].slot as u64)
    }

    /// Marks the slots to which the edges from a reached slot lead.
    pub fn visit(&mut self, adjacent: &Adjacent, parent: u32) -> Result<(), AllocError>
        requires sound { (seeds : List Slot) × (edges : List Edge) ×
            AreAdjacent edges (slots_of self.old) adjacent.now ×
            IsSound seeds edges (slots_of self.old) self.old }
        requires parent { parent < length self.old.order.items }
        requires few { slots_of self.old < 2 ^ 32 }
        ensures sound { OnOk result ((seeds : List Slot) (edges : List Edge) →
            AreAdjacent edges (slots_of self.old) adjacent.now →
            IsSound seeds edges (slots_of self.old) self.old →
            IsSound seeds edges (slots_of self.old) self.new) }
        ensures keeps { OnOk result (KeepsReached self.old self.new) }
        ensures levels { OnOk result (AreLevels self.old.order.items parent →
            AreLevels self.new.order.items parent) }
        ensures done { OnOk result ((edges : List Edge) →
            AreAdjacent edges (slots_of self.old) adjacent.now →
            GoesOn edges (slot_at self.old.order.items parent) self.new) }
    {
        let slot = self.slot(parent);
        for at in adjacent.start(slot)..adjacent.end(slot) {
            let link = adjacent.link(at);
            let edge = link.edge;
            let to = Slot(link.to as u64);
            self.mark(to, Some(Step { edge, parent }))?;
        }
        Ok(())
    }

    /// The slot's place in the order, if it was reached.
    pub fn place(&self, s: Slot) -> Option<u32>
        requires { s.0 < slots_of self.now }
        ensures { result ≡ place_of self.now.places.items s }
    {
        self.places[s.0 as usize]
    }

    /// The edges by which the walk came to the slot at this place, from a seed on.
    pub fn path(&self, alloc: Global, place: u32) -> Result<Vec<u64>, AllocError>
        requires { place < length self.now.order.items }
        ensures { IfOk result (λ path. path.items ≡ path_of self.now.order.items place) }
    {
        let mut path = Vec::new(alloc);
        let mut at = place;
        while let Some(step) = self.order[at as usize].by {
            path.push(step.edge as u64)?;
            at = step.parent;
        }
        path.reverse();
        Ok(path)
    }
}
