// The lowering of whole programs.
ghost use Rattle.std.specs.Prelude.{◌≡◌, IfOk, map};
ghost use Rattle.typed_tree.specs.TypedTree.{signatures_of};
ghost use Rattle.typed_tree.specs.TypedView.{view_typed};
ghost use Rattle.pt_core.specs.CodeTree.{view_program, view_function, view_global, numbered};
ghost use Rattle.lowering.specs.Functions as is;
ghost use Rattle.lowering.specs.Functions.{core_program};
ghost use Rattle.lowering.specs.FunctionParts.{program_of};

use pt_base::{FnId, GlobalId, Listed, next_number};
use pt_core::{CoreFn, CoreProgram, GlobalVar, Signatures};
use std::alloc::{AllocError, Global};
use typed_tree::{StructInfo, Typed};

/// Joins functions in the normal form with the structs, signatures and globals of a program.
///
/// # Errors
///
/// Want of memory.
pub fn whole_program(
    alloc: Global,
    program: &Typed,
    functions: Vec<CoreFn>,
) -> Result<CoreProgram, AllocError>
    ensures joined { IfOk result (λ p. view_program p ≡ program_of (view_typed program.now) (map view_function functions.items)) }
    ensures whole { map view_function functions.items ≡ is.functions_from (view_typed program.now) 0 (view_typed program.now).functions → IfOk result (λ p. view_program p ≡ core_program (view_typed program.now)) }
{
    Ok(CoreProgram {
        structs: structs_of(alloc, program)?,
        signatures: signatures(alloc, program)?,
        functions,
        globals: globals(alloc, program)?,
    })
}

fn structs_of(alloc: Global, program: &Typed) -> Result<Listed<StructInfo>, AllocError>
    ensures { IfOk result (λ structs. structs ≡ (view_typed program.now).structs) }
{
    let mut all = Vec::new(alloc);
    let structs = program.structs.as_slice();
    for info in structs {
        all.push(info.copy(alloc)?)?;
    }
    Ok(Listed::new(all))
}

// what each function and host is called with, by number
fn signatures(alloc: Global, program: &Typed) -> Result<Signatures, AllocError>
    ensures { IfOk result (λ all. numbered all ≡ is.signatures_from 0 (signatures_of (view_typed program.now))) }
{
    let mut all = Vec::new(alloc);
    let mut number: u32 = 0;
    let functions = program.functions.as_slice();
    for function in functions {
        all.push((FnId(number), function.signature.copy(alloc)?))?;
        number = next_number(number)?;
    }
    Ok(Listed::new(all))
}

// each global with the values that it starts with, by number
fn globals(alloc: Global, program: &Typed) -> Result<Listed<GlobalVar>, AllocError>
    ensures { IfOk result (λ all. map view_global all ≡ is.globals_from 0 (view_typed program.now).globals) }
{
    let mut all = Vec::new(alloc);
    let mut number: u32 = 0;
    let globals = program.globals.as_slice();
    for global in globals {
        all.push(GlobalVar {
            id: GlobalId(number),
            var: global.var.copy(alloc)?,
            cells: Listed::new(Vec::from_slice(alloc, global.cells.as_slice())?),
        })?;
        number = next_number(number)?;
    }
    Ok(Listed::new(all))
}
