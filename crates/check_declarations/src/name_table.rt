// Values by name, numbered in the order of their names.
use indexmap::IndexMap;
use indexmap::map::Values;
use std::alloc::{AllocError, Global};
use std::marker::Model;

/// Values by name, numbered from 0 in the order in which the names came; fewer than 2^32 of them.
/// Contracts see it as the list of the names with their values.
#[derive(Drop)]
pub struct NameTable<V: Drop> {
    entries: IndexMap<Vec<u8>, V>,
}

impl<V: Drop> Model for NameTable<V> {
    ghost use Rattle.std.specs.Prelude.{List, ℕ, map, length, ◌^◌, ◌<◌};

    ghost Value = { List (List ℕ × V) };

    ghost view = { λ t. map (λ e. (e.0.items, e.1)) t.entries.entries };

    ghost invariant = { λ t. length t.entries.entries < 2 ^ 32 };
}

impl<V: Drop> NameTable<V> {
    ghost use Rattle.std.specs.Prelude.{◌≡◌, ◌^◌, ◌<◌, [], length, option_copied, option_map, is_none, OnOk, OnErr, IfOk};
    ghost use Rattle.check_declarations.specs.NameTables.{number_of, value_at, name_at, values, with_name, is_new};

    /// A table of no names.
    pub fn new(alloc: Global) -> NameTable<V>
        ensures { result ≡ [] }
    {
        NameTable {
            entries: IndexMap::new(alloc),
        }
    }

    /// How many names there are.
    pub fn count(&self) -> u32
        ensures { result ≡ length self.now }
    {
        self.entries.len() as u32
    }

    /// The number of a name.
    pub fn number_of(&self, name: &[u8]) -> Option<u32>
        ensures { result ≡ number_of self.now name.now }
    {
        let place = self.entries.get_index_of(name)?;
        Some(place as u32)
    }

    /// The value with this number.
    pub fn get(&self, number: u32) -> Option<&V>
        ensures { option_copied result ≡ value_at self.now number }
    {
        let (_, value) = self.entries.get_index(number as usize)?;
        Some(value)
    }

    /// The name with this number.
    pub fn name(&self, number: u32) -> Option<&[u8]>
        ensures { option_map (λ name. name.now) result ≡ name_at self.now number }
    {
        let (name, _) = self.entries.get_index(number as usize)?;
        Some(name.as_slice())
    }

    /// The values, in order.
    pub fn values(&self) -> Values<'_, Vec<u8>, V>
        ensures { result ≡ values self.now }
    {
        self.entries.values()
    }

    /// Adds a name with its value at the end, and says whether the name is new. A name that is
    /// there keeps its value. A table of 2^32 - 1 names has no room for a further one, which is
    /// answered as want of memory. Where memory is wanting, the table stays as it is.
    pub fn add(&mut self, alloc: Global, name: &[u8], value: V) -> Result<bool, AllocError>
        ensures added { OnOk result (self.new ≡ with_name self.old name.now value) }
        ensures new { IfOk result (λ b. b ≡ is_new self.old name.now) }
        ensures err { OnErr result (self.new ≡ self.old) }
    {
        if self.number_of(name).is_some() {
            return Ok(false);
        }
        if self.count() == u32::MAX {
            return Err(AllocError);
        }
        self.entries.insert(Vec::from_slice(alloc, name)?, value)?;
        Ok(true)
    }
}
