// The parts with which a slave begins.
ghost use Rattle.std.specs.Prelude.{◌≡◌, ◌++◌, IfOk, IsTrue, All, ◌<◌, ◌^◌, false, map};
ghost use Rattle.typed_tree.specs.WellFormed.{are_rising};
ghost use Rattle.host_table.specs.Hosts.{hosts_of, models_by};
ghost use Rattle.pt_core.specs.CodeTree.{numbered, view_boot, view_program};
ghost use Rattle.pt_core.specs.WellFormed.{boot_program, is_sound};
ghost use Rattle.core_steps_law.specs.WholeRun.{begun_machine};
ghost use Rattle.core_machine.specs.Machines.{Shown};
ghost use Rattle.slave_interp.specs.Beginning.{main_among};

use core_machine::Machine;
use host_table::Host;
use pt_base::{FnId, Listed};
use pt_core::{Boot, CoreProgram};
use pt_tree::{HostModel, Signature};
use std::alloc::{AllocError, Global};
use std::mem;
use typed_tree::is_main;

/// The program of a boot.
pub(crate) fn program_of(alloc: Global, boot: Boot) -> CoreProgram
    ensures { view_program result ≡ boot_program (view_boot boot) }
{
    let mut boot = boot;
    CoreProgram {
        structs: mem::replace(&mut boot.structs, Listed::new(Vec::new(alloc))),
        signatures: mem::replace(&mut boot.signatures, Listed::new(Vec::new(alloc))),
        functions: mem::replace(&mut boot.functions, Vec::new(alloc)),
        globals: mem::replace(&mut boot.globals, Listed::new(Vec::new(alloc))),
    }
}

/// The machine of a program within a budget, with main entered.
pub(crate) fn begun(alloc: Global, code: &CoreProgram, budget: u32) -> Result<Machine, AllocError>
    requires { IsTrue (is_sound false (view_program code.now)) }
    ensures { IfOk result (λ x. Shown (view_program code.now) x (begun_machine (view_program code.now) budget)) }
{
    let mut machine = Machine::new(alloc, code, u64::from(budget))?;
    machine.enter(main_of(code.signatures.as_slice()), 1, &[])?;
    Ok(machine)
}

// The number of main; 0 where nothing has the name.
fn main_of(signatures: &[(FnId, Signature)]) -> FnId
    ensures { result.0 ≡ main_among (numbered signatures.now) }
{
    for entry in signatures {
        if is_main(&entry.1) {
            return entry.0;
        }
    }
    FnId(0)
}

/// Hosts with these models and this input.
pub(crate) fn hosts_by(
    alloc: Global,
    models: &[(FnId, HostModel)],
    input: &[u8],
) -> Result<Host, AllocError>
    requires { IsTrue (are_rising 0 (map (λ h. h.0) (numbered models.now))) }
    ensures { IfOk result (λ h. hosts_of h ≡ record { models = models_by (numbered models.now); input = input.now }) }
{
    let models = numbered_models(alloc, models)?;
    let mut hosts = Host::from_models(alloc, models);
    hosts.give(alloc, input)?;
    Ok(hosts)
}

// Models equal to these, by the functions' numbers.
fn numbered_models(
    alloc: Global,
    models: &[(FnId, HostModel)],
) -> Result<Vec<(u32, HostModel)>, AllocError>
    ensures { IfOk result (λ v. v.items ≡ numbered models.now) }
{
    let mut numbered = Vec::new(alloc);
    for (f, model) in models {
        numbered.push((f.0, model.copy(alloc)?))?;
    }
    Ok(numbered)
}

/// Bytes are below 256, and a number of 32 bits is below 2^32. Nothing is done.
pub(crate) fn fit_types(input: &[u8], turns: u32)
    ensures bytes { All (λ x. x < 256) input.now }
    ensures turns { turns < 2 ^ 32 }
{
    let _input = input;
    let _turns = turns;
}
