// A list that contracts see as one.
use std::alloc::{AllocError, Global};
use std::marker::Model;

/// A list. It is made from a `Vec` and lends its items without taking memory.
#[derive(Drop)]
pub struct Listed<T: Drop> {
    items: Vec<T>,
}

impl<T: Drop> Model for Listed<T> {
    ghost use Rattle.std.specs.Prelude.{List};

    ghost Value = { List T };

    ghost view = { λ l. l.items.items };
}

impl<T: Drop> Listed<T> {
    ghost use Rattle.std.specs.Prelude.{◌≡◌};

    /// These items.
    pub fn new(items: Vec<T>) -> Listed<T>
        ensures { result ≡ items.items }
    {
        Listed { items }
    }

    /// Lends the items.
    pub fn as_slice(&self) -> &[T]
        ensures { result.now ≡ self.now }
    {
        self.items.as_slice()
    }

    /// Gives the items back.
    pub fn into_vec(self) -> Vec<T>
        ensures { result.items ≡ self }
    {
        self.items
    }
}

impl<T: Copy + Drop> Listed<T> {
    ghost use Rattle.std.specs.Prelude.{◌≡◌, IfOk};

    /// A list of the same items.
    pub fn copy(&self, alloc: Global) -> Result<Listed<T>, AllocError>
        ensures { IfOk result (λ l. l ≡ self.now) }
    {
        Ok(Listed {
            items: Vec::from_slice(alloc, self.items.as_slice())?,
        })
    }
}
