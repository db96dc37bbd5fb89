// The signatures that each half has.
ghost use Rattle.std.specs.Prelude.{◌≡◌, ◌++◌, IfOk, OnOk};
ghost use Rattle.reach.specs.Tables.{item_if};
ghost use Rattle.typed_tree.specs.TypedView.{view_typed};
ghost use Rattle.pt_core.specs.CodeTree.{numbered};
ghost use Rattle.splitter.specs.Halves.{chosen_signatures};
ghost use Rattle.splitter.specs.Sets.{is_set};

use crate::number_set::NumberSet;
use pt_base::{FnId, Listed, next_number};
use pt_core::Signatures;
use pt_tree::Signature;
use std::alloc::{AllocError, Global};
use typed_tree::Typed;

// adds a signature, where it is needed
fn add_signature(
    alloc: Global,
    needed: bool,
    f: FnId,
    signature: &Signature,
    list: &mut Vec<(FnId, Signature)>,
) -> Result<(), AllocError>
    ensures { OnOk result (numbered list.new.items ≡ numbered list.old.items ++ item_if needed (f.0, signature.now)) }
{
    if needed {
        list.push((f, signature.copy(alloc)?))?;
    }
    Ok(())
}

/// What the functions and hosts of these numbers are called with.
pub(crate) fn signatures_in(
    alloc: Global,
    t: &Typed,
    needed: &NumberSet,
) -> Result<Signatures, AllocError>
    ensures { IfOk result (λ all. numbered all ≡ chosen_signatures (is_set needed.now) (view_typed t.now)) }
{
    let mut all = Vec::new(alloc);
    let mut number: u32 = 0;
    let functions = t.functions.as_slice();
    for function in functions {
        let wanted = needed.has(number);
        add_signature(alloc, wanted, FnId(number), &function.signature, &mut all)?;
        number = next_number(number)?;
    }
    Ok(Listed::new(all))
}
