// What is left of a message that is being given.
ghost use Rattle.std.specs.Prelude.{◌≡◌, ◌≢◌, ◌≤◌, ◌+◌, ◌++◌, [], IfOk, drop, length, vec_len};
ghost use Rattle.pair_protocol.specs.Pair.{is_empty};

use std::alloc::{AllocError, Global};
use std::marker::Model;
use std::mem;

/// The bytes of a message, of which the first ones were given.
#[derive(Drop)]
pub(crate) struct Rest {
    bytes: Vec<u8>,
    // So many of them were given.
    given: usize,
}

impl Model for Rest {
    ghost use Rattle.std.specs.Prelude.{◌≤◌, ℕ, List, drop, length};

    ghost Value = { List ℕ };

    ghost view = { λ r. drop r.given r.bytes.items };

    ghost invariant = { λ r. r.given ≤ length r.bytes.items };
}

impl Rest {
    /// Nothing is left.
    pub(crate) fn none(alloc: Global) -> Rest
        ensures { result ≡ [] }
    {
        Rest {
            bytes: Vec::new(alloc),
            given: 0,
        }
    }

    /// All of these bytes are left.
    pub(crate) fn of(bytes: Vec<u8>) -> Rest
        ensures { result ≡ bytes.items }
    {
        Rest { bytes, given: 0 }
    }

    /// Whether nothing is left.
    pub(crate) fn is_none(&self) -> bool
        ensures { result ≡ is_empty self.now }
    {
        self.given == self.bytes.len()
    }

    /// Gives the next of them, at most `max`: all at once where none was given and they are no more.
    pub(crate) fn take(&mut self, alloc: Global, max: usize) -> Result<Vec<u8>, AllocError>
        requires { 1 ≤ max }
        ensures all { IfOk result (λ piece. self.old ≡ piece.items ++ self.new) }
        ensures length { IfOk result (λ piece. vec_len piece ≤ max) }
        ensures some { IfOk result (λ piece. self.old ≢ [] → piece.items ≢ []) }
    {
        let whole = self.given == 0 && self.bytes.len() <= max;
        if whole {
            return Ok(mem::replace(&mut self.bytes, Vec::new(alloc)));
        }
        let piece = part_of(&self.bytes, self.given, max);
        let size = piece.len();
        let given = Vec::from_slice(alloc, piece)?;
        self.given += size;
        Ok(given)
    }
}

// At most `max` bytes from this place on.
fn part_of(bytes: &[u8], from: usize, max: usize) -> &[u8]
    requires { from ≤ length bytes.now }
    ensures all { drop from bytes.now ≡ result.now ++ drop (from + length result.now) bytes.now }
    ensures length { length result.now ≤ max }
    ensures within { from + length result.now ≤ length bytes.now }
    ensures some { 1 ≤ max → drop from bytes.now ≢ [] → result.now ≢ [] }
{
    &bytes[from..from + max.min(bytes.len() - from)]
}
