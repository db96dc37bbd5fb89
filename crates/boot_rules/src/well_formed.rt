// Whether a boot is well formed.
ghost use Rattle.std.specs.Prelude.{◌≡◌, IfOk};
ghost use Rattle.host_models.specs.Fitting.{fits};
ghost use Rattle.pt_core.specs.CodeTree.{view_boot};
ghost use Rattle.pt_core.specs.WellFormed.{is_well_formed_boot};
ghost use Rattle.boot_rules.specs.Tests as tests;

use crate::calls::calls_fit;
use crate::candidate::Candidate;
use crate::candidates::candidate_of;
use crate::functions::functions_fit;
use crate::globals::{are_small, globals_fit};
use crate::hosts::hosts_fit;
use crate::signatures::signatures_fit;
use crate::start::has_main;
use pt_core::Boot;
use std::alloc::{AllocError, Global};

/// Whether the boot is well formed. It takes time n log n in the length of its spelling, memory for
/// a few words a struct, and stack for each node of code that stands inside another.
///
/// # Errors
///
/// Want of memory.
pub fn is_well_formed(alloc: Global, boot: &Boot) -> Result<bool, AllocError>
    ensures { IfOk result (λ is. is ≡ is_well_formed_boot fits (view_boot boot.now)) }
{
    match candidate_of(alloc, boot)? {
        Some(candidate) => Ok(parts_fit(&candidate)),
        None => Ok(false),
    }
}

// Whether all that is tested behind the structs is well formed.
#[tactic(auto, unfolding(crate::specs::Tests::parts_fit))]
fn parts_fit(candidate: &Candidate<'_>) -> bool
    ensures { result ≡ tests.parts_fit (view_boot candidate.now.boot.now) }
{
    let boot = candidate.boot;
    globals_fit(candidate, boot.globals.as_slice())
        && are_small(boot.globals.as_slice())
        && signatures_fit(boot.structs.as_slice(), boot.signatures.as_slice())
        && functions_fit(candidate, boot.functions.as_slice())
        && has_main(candidate)
        && hosts_fit(candidate, boot.hosts.as_slice())
        && calls_fit(candidate, boot.functions.as_slice())
}
