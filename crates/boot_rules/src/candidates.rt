// Which boots may be well formed.
ghost use Rattle.std.specs.Prelude.{◌≡◌, ◌&&◌, false, IfOk, MatchOption};
ghost use Rattle.host_models.specs.Fitting.{fits};
ghost use Rattle.pt_core.specs.CodeTree.{view_boot};
ghost use Rattle.pt_core.specs.WellFormed.{is_well_formed_boot};
ghost use Rattle.boot_rules.specs.Tests as tests;

use crate::candidate::Candidate;
use crate::numbers::{functions_rise, globals_rise, numbers_rise};
use crate::shapes::{have_small_fields, shapes_of};
use crate::structs::all_name_earlier;
use pt_core::Boot;
use std::alloc::{AllocError, Global};

/// The boot as a candidate; None where its lists aren't in order or its structs aren't sound.
pub(crate) fn candidate_of<'a>(
    alloc: Global,
    boot: &'a Boot,
) -> Result<Option<Candidate<'a>>, AllocError>
    ensures { IfOk result (λ o. MatchOption o (is_well_formed_boot fits (view_boot boot.now) ≡ false) (λ c. c.boot.now ≡ boot.now)) }
{
    if !is_in_order(boot) {
        return Ok(None);
    }
    let structs = boot.structs.as_slice();
    if !all_name_earlier(structs) {
        return Ok(None);
    }
    let shapes = shapes_of(alloc, structs)?;
    if !have_small_fields(shapes.as_slice(), structs) {
        return Ok(None);
    }
    Ok(Some(Candidate { boot, shapes }))
}

// Whether each list of what is numbered is in the order of the numbers.
#[tactic(auto, unfolding(crate::specs::Tests::is_in_order))]
fn is_in_order(boot: &Boot) -> bool
    ensures { result ≡ tests.is_in_order (view_boot boot.now) }
{
    numbers_rise(boot.signatures.as_slice())
        && (functions_rise(boot.functions.as_slice()) && globals_rise(boot.globals.as_slice()))
        && numbers_rise(boot.hosts.as_slice())
}
