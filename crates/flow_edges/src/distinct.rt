// Numbers, each once.
ghost use Rattle.std.specs.Prelude.{◌≡◌, IfOk, OnOk};
ghost use Rattle.flow_edges.specs.Distinct.{with_new};
ghost use Rattle.flow_edges.specs.Moves as is;

use indexmap::IndexSet;
use std::alloc::{AllocError, Global};

// keeps a number that was not seen before
fn keep(number: u64, seen: &mut IndexSet<u64>, kept: &mut Vec<u64>) -> Result<(), AllocError>
    requires { seen.old.keys ≡ kept.old.items }
    ensures same { OnOk result (seen.new.keys ≡ kept.new.items) }
    ensures kept { OnOk result (kept.new.items ≡ with_new kept.old.items number) }
{
    if seen.insert(number)? {
        kept.push(number)?;
    }
    Ok(())
}

/// Each number once, where it stands first, in time linear in how many there are.
pub fn first_of_each(alloc: Global, numbers: Vec<u64>) -> Result<Vec<u64>, AllocError>
    ensures { IfOk result (λ kept. kept.items ≡ is.first_of_each numbers.items) }
{
    if numbers.len() < 2 {
        return Ok(numbers);
    }
    let mut seen = IndexSet::new(alloc);
    let mut kept = Vec::new(alloc);
    for number in &numbers {
        keep(*number, &mut seen, &mut kept)?;
    }
    Ok(kept)
}
