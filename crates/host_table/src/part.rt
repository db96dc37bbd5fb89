// Copies of models, and the listed ones of some hosts.
ghost use Rattle.std.specs.Prelude.{◌≡◌, ℕ, IfOk, filter};
ghost use Rattle.std.specs.BTreeSet.{contains};
ghost use Rattle.std.specs.Ordering.{nat_cmp};
ghost use Rattle.host_table.specs.Hosts.{is_listed};

use pt_base::FnId;
use pt_tree::HostModel;
use std::alloc::{AllocError, Global};
use std::collections::BTreeSet;

/// The numbers of functions.
pub(crate) fn numbers_of(alloc: Global, fns: &[FnId]) -> Result<BTreeSet<u32>, AllocError>
    ensures { IfOk result (λ s. (n : ℕ) → contains nat_cmp s n ≡ is_listed fns.now n) }
{
    let mut numbers = BTreeSet::new(alloc);
    for f in fns {
        numbers.insert(f.0)?;
    }
    Ok(numbers)
}

/// The models of the listed hosts.
pub(crate) fn listed_models(
    alloc: Global,
    listed: &BTreeSet<u32>,
    models: &[(u32, HostModel)],
) -> Result<Vec<(u32, HostModel)>, AllocError>
    ensures { IfOk result (λ v. v.items ≡ filter (λ m. contains nat_cmp listed.now m.0) models.now) }
{
    let mut part = Vec::new(alloc);
    for (number, model) in models {
        if listed.contains(number) {
            part.push((*number, model.copy(alloc)?))?;
        }
    }
    Ok(part)
}

/// Models that are equal to these, of the same hosts.
pub(crate) fn copied_models(
    alloc: Global,
    models: &[(u32, HostModel)],
) -> Result<Vec<(u32, HostModel)>, AllocError>
    ensures { IfOk result (λ v. v.items ≡ models.now) }
{
    let mut copies = Vec::with_capacity(alloc, models.len())?;
    for entry in models {
        copies.push((entry.0, entry.1.copy(alloc)?))?;
    }
    Ok(copies)
}
