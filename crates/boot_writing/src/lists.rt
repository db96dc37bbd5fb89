// Writing lists, and what stands behind its number.
ghost use Rattle.std.specs.Prelude.{◌≡◌, ◌++◌, ℕ, List, OnOk, map};
ghost use Rattle.wire.specs.Spelling.{four_bytes, sixteen_signed_bytes};
ghost use Rattle.boot_fields.specs.Spelling.{list_bytes, numbered_bytes};
ghost use Rattle.boot_fields.specs.Limits.{Fits32, FitsList, FitsNumbered};

use boot_fields::put_count;
use pt_base::FnId;
use std::alloc::AllocError;
use wire::{put_i128, put_u32};

/// What has one spelling as bytes.
pub trait Spelled {
    /// What is seen of a value.
    ghost Seen: { Type 0 };

    ghost seen: { Self → Seen };

    /// The spelling.
    ghost spelling: { Seen → List ℕ };

    /// The numbers in it are those of the fields' types.
    ghost Fits: { Seen → Type 0 };

    /// Appends the spelling.
    ///
    /// # Errors
    ///
    /// Memory ran out.
    fn put(&self, out: &mut Vec<u8>) -> Result<(), AllocError>
        ensures bytes { OnOk result (out.new.items ≡ out.old.items ++ spelling (seen self.now)) }
        ensures fits { OnOk result (Fits (seen self.now)) };
}

/// Appends the length of the list and then its items.
///
/// # Errors
///
/// Memory ran out.
#[tactic(auto, using(std::proofs::Common::append_assoc))]
pub fn put_list<T: Spelled>(out: &mut Vec<u8>, items: &[T]) -> Result<(), AllocError>
    ensures bytes { OnOk result (out.new.items ≡ out.old.items ++ list_bytes T.spelling (map T.seen items.now)) }
    ensures fits { OnOk result (FitsList T.Fits (map T.seen items.now)) }
{
    put_count(out, items.len())?;
    for item in items {
        item.put(out)?;
    }
    Ok(())
}

impl Spelled for u32 {
    ghost Seen = { ℕ };

    ghost seen = { λ n. n };

    ghost spelling = { four_bytes };

    ghost Fits = { Fits32 };

    fn put(&self, out: &mut Vec<u8>) -> Result<(), AllocError> {
        put_u32(out, *self)
    }
}

impl Spelled for i128 {
    ghost use Rattle.std.specs.Prelude.{ℤ, FitsSigned};
    ghost use Rattle.std.specs.Int.{w128};

    ghost Seen = { ℤ };

    ghost seen = { λ n. n };

    ghost spelling = { sixteen_signed_bytes };

    ghost Fits = { FitsSigned w128 };

    fn put(&self, out: &mut Vec<u8>) -> Result<(), AllocError> {
        put_i128(out, self)
    }
}

impl<T: Spelled> Spelled for (FnId, T) {
    ghost Seen = { ℕ × T.Seen };

    ghost seen = { λ x. (x.0.0, T.seen x.1) };

    ghost spelling = { numbered_bytes T.spelling };

    ghost Fits = { FitsNumbered T.Fits };

    #[tactic(auto, using(std::proofs::Common::append_assoc))]
    fn put(&self, out: &mut Vec<u8>) -> Result<(), AllocError> {
        put_u32(out, self.0.0)?;
        self.1.put(out)
    }
}
