// The way to a leaf of an object.
ghost use Rattle.std.specs.Prelude.{◌≡◌, [], IfOk};

use std::alloc::{AllocError, Global};
use std::marker::Model;
use std::sync::Arc;

/// The numbers of the fields that lead to a leaf. Objects of one struct share the ways to their leaves, and
/// the way to an object that is its own leaf takes no memory.
#[derive(Drop)]
pub struct Path {
    numbers: Option<Arc<Vec<u32>, Global>>,
}

impl Model for Path {
    ghost use Rattle.std.specs.Prelude.{List, ℕ};
    ghost use Rattle.sides.specs.Paths.{numbers_of};

    ghost Value = { List ℕ };

    ghost view = { λ p. numbers_of p.numbers };
}

impl Path {
    /// That of no field.
    pub(crate) fn none() -> Path
        ensures { result ≡ [] }
    {
        Path { numbers: None }
    }

    /// That of these fields.
    pub(crate) fn new(alloc: Global, numbers: &[u32]) -> Result<Path, AllocError>
        ensures { IfOk result (λ p. p ≡ numbers.now) }
    {
        if numbers.is_empty() {
            return Ok(Path::none());
        }
        let shared = Arc::new(alloc, numbers.to_vec(alloc)?)?;
        Ok(Path {
            numbers: Some(shared),
        })
    }

    /// The same way, without a copy.
    pub(crate) fn share(&self) -> Result<Path, AllocError>
        ensures { IfOk result (λ p. p ≡ self.now) }
    {
        match &self.numbers {
            Some(shared) => Ok(Path {
                numbers: Some(Arc::try_clone(shared)?),
            }),
            None => Ok(Path::none()),
        }
    }

    /// The numbers.
    pub fn as_slice(&self) -> &[u32]
        ensures { result.now ≡ self.now }
    {
        match &self.numbers {
            Some(shared) => shared.as_slice(),
            None => &[],
        }
    }
}
