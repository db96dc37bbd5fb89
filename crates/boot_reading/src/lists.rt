// Reading lists, and what stands behind its number.
ghost use Rattle.std.specs.Prelude.{ℕ, List, map};
ghost use Rattle.boot_fields.specs.Reading.{Gives, Reading, list_at, number32_at, numbered_at, signed128_at};

use boot_fields::{ReadError, number_i128, number_u32, number_u64};
use pt_base::FnId;
use std::alloc::Global;

/// What bytes can begin with.
pub trait Part: Drop + Sized {
    /// What is seen of a value.
    ghost Seen: { Type 0 };

    ghost seen: { Self → Seen };

    /// What bytes are read as.
    ghost part: { List ℕ → Reading Seen };

    /// The part at the front and the bytes behind it.
    ///
    /// # Errors
    ///
    /// `Bad` where the bytes don't begin with one, and `Memory` where memory ran out or the part goes too deep.
    fn read(alloc: Global, bytes: &[u8]) -> Result<(Self, &[u8]), ReadError>
        ensures { Gives (λ x. (seen x.0, x.1.now)) result (part bytes.now) };
}

/// A list of such parts behind its length. No length takes more memory than the parts that are there.
///
/// # Errors
///
/// `Bad` where the bytes don't begin with such a list, and `Memory` where memory ran out or a part goes too deep.
pub fn list<T: Part>(alloc: Global, bytes: &[u8]) -> Result<(Vec<T>, &[u8]), ReadError>
    ensures { Gives (λ x. (map T.seen x.0.items, x.1.now)) result (list_at T.part bytes.now) }
{
    let (count, front) = number_u64(bytes)?;
    let mut items = Vec::new(alloc);
    let mut rest = front;
    for _ in 0..count {
        let (item, after) = T::read(alloc, rest)?;
        items.push(item)?;
        rest = after;
    }
    Ok((items, rest))
}

impl Part for u32 {
    ghost Seen = { ℕ };

    ghost seen = { λ n. n };

    ghost part = { number32_at };

    fn read(_: Global, bytes: &[u8]) -> Result<(Self, &[u8]), ReadError> {
        number_u32(bytes)
    }
}

impl Part for i128 {
    ghost use Rattle.std.specs.Prelude.{ℤ};

    ghost Seen = { ℤ };

    ghost seen = { λ n. n };

    ghost part = { signed128_at };

    fn read(_: Global, bytes: &[u8]) -> Result<(Self, &[u8]), ReadError> {
        number_i128(bytes)
    }
}

impl<T: Part> Part for (FnId, T) {
    ghost Seen = { ℕ × T.Seen };

    ghost seen = { λ x. (x.0.0, T.seen x.1) };

    ghost part = { numbered_at T.part };

    #[tactic(auto, unfolding(boot_fields::specs::Reading::numbered_at))]
    fn read(alloc: Global, bytes: &[u8]) -> Result<(Self, &[u8]), ReadError> {
        let (number, rest) = number_u32(bytes)?;
        let (value, rest) = T::read(alloc, rest)?;
        Ok(((FnId(number), value), rest))
    }
}
