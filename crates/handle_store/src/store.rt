// The store of values that handles stand for.
use crate::Handle;
use pt_base::IntType;
use std::alloc::{AllocError, Global};
use std::marker::Model;

/// The values that the monitor keeps, each with its type and in that type's range. Contracts see
/// it as their list, which only grows at its end: the handle with number k stands for entry k.
#[derive(Drop)]
pub struct Store {
    entries: Vec<(IntType, i128)>,
}

impl Model for Store {
    ghost use Rattle.std.specs.Prelude.{List, ℤ};
    ghost use Rattle.pt_base.specs.declared.int_type.IntType.{IntType};

    ghost Value = { List (IntType × ℤ) };

    ghost use Rattle.handle_store.specs.Stored.{AreInRange};

    ghost view = { λ s. s.entries.items };

    ghost invariant = { λ s. AreInRange s.entries.items };
}

impl Store {
    ghost use Rattle.std.specs.Prelude.{◌≡◌, ◌^◌, ◌<◌, [], ◌∷◌, ◌++◌, length, slice_get, IfOk, IfSome, OnOk, OnErr};
    ghost use Rattle.pt_base.specs.IntTypes.{InRange};

    /// A store of no values.
    pub fn new(alloc: Global) -> Store
        ensures { result ≡ [] }
    {
        Store {
            entries: Vec::new(alloc),
        }
    }

    /// Keeps a value. The store stays as it is where memory is wanting.
    pub fn add(&mut self, t: IntType, v: i128) -> Result<Handle, AllocError>
        requires { InRange t v }
        ensures added { OnOk result (self.new ≡ self.old ++ (t, v) ∷ []) }
        ensures handle { IfOk result (λ h. h ≡ length self.old) }
        ensures err { OnErr result (self.new ≡ self.old) }
    {
        let handle = Handle::of(self.count());
        self.entries.push((t, v))?;
        Ok(handle)
    }

    /// The value that the handle with this number stands for, and its type.
    pub fn get(&self, number: u64) -> Option<(IntType, i128)>
        ensures entry { result ≡ slice_get self.now number }
        ensures in_range { IfSome result (λ entry. InRange entry.0 entry.1) }
    {
        self.entries.get(number as usize).copied()
    }

    /// How many values are kept, which is the number of the next handle.
    pub fn count(&self) -> u64
        ensures count { result ≡ length self.now }
        ensures small { result < 2 ^ 63 }
    {
        self.entries.len() as u64
    }
}
