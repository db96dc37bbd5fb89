// The slots of a brace list's items, kept from one item to the next.
ghost use Rattle.std.specs.Prelude.{◌≡◌, ◌<◌, IfOk, IsTrue, OnOk, get_or};
ghost use Rattle.flow_edges.specs.Items.{items_of};
ghost use Rattle.flow_edges.specs.KeptItems.{AreItems, IsFor};

use crate::items::first_items;
use sides::{Object, Scope};
use std::alloc::{AllocError, Global};

/// The slots of an object's first integers, if there was an object. Twice as many are found each time
/// that there are too few, so the time for a list is linear in its length.
#[derive(Drop)]
pub struct KeptItems {
    pub object: Option<Object>,
    pub wanted: usize,
    pub slots: Vec<u64>,
}

// how many to find where the item of this number is asked for
fn enough(k: usize) -> Result<usize, AllocError>
    ensures { IfOk result (λ n. k < n) }
{
    match k.checked_mul(2) {
        Some(n) => match n.checked_add(8) {
            Some(n) => Ok(n),
            None => Err(AllocError),
        },
        None => Err(AllocError),
    }
}

impl KeptItems {
    ghost use Rattle.std.specs.Prelude.{List};
    ghost use Rattle.typed_tree.specs.declared.types.StructInfo.{StructInfo};

    /// Those of no object.
    pub fn none(alloc: Global) -> KeptItems
        ensures { (structs : List StructInfo) → AreItems structs result }
    {
        KeptItems {
            object: None,
            wanted: 0,
            slots: Vec::new(alloc),
        }
    }

    // they are of this object
    fn is_for(&self, x: Object) -> bool
        ensures { IsTrue result → IsFor self.now x }
    {
        match self.object {
            Some(object) => object.start == x.start && object.ty == x.ty,
            None => false,
        }
    }

    // finds those of an object, up to the item of this number at least
    fn find(
        &mut self,
        alloc: Global,
        scope: &Scope<'_>,
        x: Object,
        k: usize,
    ) -> Result<(), AllocError>
        ensures are { OnOk result (AreItems scope.now.structs.now self.new) }
        ensures object { OnOk result (IsFor self.new x) }
        ensures enough { OnOk result (k < self.new.wanted) }
    {
        let wanted = enough(k)?;
        let slots = first_items(alloc, scope, x, wanted)?;
        *self = KeptItems {
            object: Some(x),
            wanted,
            slots,
        };
        Ok(())
    }

    /// The slot of the item of this number in the brace list of an object.
    pub fn slot(
        &mut self,
        alloc: Global,
        scope: &Scope<'_>,
        x: Object,
        k: usize,
    ) -> Result<u64, AllocError>
        requires { AreItems scope.now.structs.now self.old }
        ensures slot { IfOk result (λ s. s ≡ get_or (items_of scope.now.structs.now x) k x.start) }
        ensures are { OnOk result (AreItems scope.now.structs.now self.new) }
    {
        if self.wanted <= k || !self.is_for(x) {
            self.find(alloc, scope, x, k)?;
        }
        match self.slots.get(k) {
            Some(slot) => Ok(*slot),
            None => Ok(x.start),
        }
    }
}
