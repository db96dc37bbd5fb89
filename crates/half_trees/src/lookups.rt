// What numbers name in a half.
ghost use Rattle.std.specs.Prelude.{◌≡◌, IfOk, None, Some, map, nat_eq, option_map, slice_get, true, false};
ghost use Rattle.std.specs.Map.{lookup};
ghost use Rattle.std.specs.Option.{option_copied};
ghost use Rattle.pt_core.specs.CodeTree.{view_function, view_slave, view_monitor};
ghost use Rattle.pt_core.specs.Types as types;
ghost use Rattle.pt_core.specs.WellFormed.{signature_at, function_at, slave_program, monitor_program};
ghost use Rattle.half_trees.specs.Places.{ArePlaces};
ghost use Rattle.half_trees.specs.Views.{view_half, view_scope};

use crate::half::{Half, Scope};
use crate::places::{Places, place_of, places_of};
use pt_base::{FnId, IntType};
use pt_core::{CoreFn, GlobalVar, MonitorProgram, SlaveProgram};
use pt_tree::Signature;
use std::alloc::{AllocError, Global};
use typed_tree::VarTy;

impl<'a> Half<'a> {
    /// The slave's half. It takes memory for a few numbers of each function and global.
    pub fn of_slave(alloc: Global, program: &'a SlaveProgram) -> Result<Half<'a>, AllocError>
        ensures { IfOk result (λ h. (view_half h ≡ slave_program (view_slave program.now)) × (h.monitor ≡ false)) }
    {
        let signatures = program.signatures.as_slice();
        let functions = program.functions.as_slice();
        let globals = program.globals.as_slice();
        Ok(Half {
            structs: program.structs.as_slice(),
            signatures,
            functions,
            globals,
            monitor: false,
            signature_places: signature_places(alloc, signatures)?,
            function_places: function_places(alloc, functions)?,
            global_places: global_places(alloc, globals)?,
        })
    }

    /// The monitor's half. It takes memory for a few numbers of each function and global.
    pub fn of_monitor(alloc: Global, program: &'a MonitorProgram) -> Result<Half<'a>, AllocError>
        ensures { IfOk result (λ h. (view_half h ≡ monitor_program (view_monitor program.now)) × (h.monitor ≡ true)) }
    {
        let signatures = program.signatures.as_slice();
        let functions = program.functions.as_slice();
        let globals = program.globals.as_slice();
        Ok(Half {
            structs: program.structs.as_slice(),
            signatures,
            functions,
            globals,
            monitor: true,
            signature_places: signature_places(alloc, signatures)?,
            function_places: function_places(alloc, functions)?,
            global_places: global_places(alloc, globals)?,
        })
    }

    // What a function or host is called with.
    pub(crate) fn signature(&self, f: u32) -> Option<&Signature>
        ensures { option_copied result ≡ signature_at (view_half self.now) f }
    {
        let place = place_of(&self.signature_places, f)?;
        signature_in(self.signatures, place)
    }

    // The global of this number.
    fn global(&self, g: u32) -> Option<&GlobalVar>
        ensures { option_map (λ x. x.now.var.ty) result ≡ lookup (nat_eq g) (map (λ x. (x.id.0, x.var.ty)) self.now.globals.now) }
    {
        let place = place_of(&self.global_places, g)?;
        global_in(self.globals, place)
    }

    // The function of this number.
    pub(crate) fn function(&self, f: u32) -> Option<&CoreFn>
        ensures { option_map (λ g. view_function g.now) result ≡ function_at (view_half self.now) f }
    {
        let place = place_of(&self.function_places, f)?;
        function_in(self.functions, place)
    }
}

impl<'a> Scope<'a> {
    // The type of a global.
    pub(crate) fn global_type(&self, g: u32) -> VarTy
        ensures { result ≡ types.global_type (view_scope self.now) g }
    {
        match self.half.global(g) {
            Some(global) => global.var.ty,
            None => VarTy::Int(IntType::Int),
        }
    }

    // The type of a variable.
    pub(crate) fn variable_type(&self, v: u32) -> VarTy
        ensures { result ≡ types.type_at (view_scope self.now).variables v }
    {
        match self.variables.get(v as usize) {
            Some(variable) => variable.ty,
            None => VarTy::Int(IntType::Int),
        }
    }
}

// What stands at this place.
fn signature_in(signatures: &[(FnId, Signature)], place: usize) -> Option<&Signature>
    ensures { option_copied result ≡ option_map (λ s. s.1) (slice_get signatures.now place) }
{
    let entry = signatures.get(place)?;
    Some(&entry.1)
}

// The function at this place.
fn function_in(functions: &[CoreFn], place: usize) -> Option<&CoreFn>
    ensures { option_map (λ g. view_function g.now) result ≡ option_map view_function (slice_get functions.now place) }
{
    functions.get(place)
}

// The global at this place.
fn global_in(globals: &[GlobalVar], place: usize) -> Option<&GlobalVar>
    ensures { option_map (λ x. x.now.var.ty) result ≡ option_map (λ x. x.var.ty) (slice_get globals.now place) }
{
    globals.get(place)
}

// The places of what functions are called with.
fn signature_places(alloc: Global, signatures: &[(FnId, Signature)]) -> Result<Places, AllocError>
    ensures { IfOk result (λ m. ArePlaces m (map (λ s. s.0.0) signatures.now)) }
{
    let numbers = signatures.iter().map(|s| s.0.0).collect::<Vec<u32>>(alloc)?;
    places_of(alloc, &numbers)
}

// The places of functions.
fn function_places(alloc: Global, functions: &[CoreFn]) -> Result<Places, AllocError>
    ensures { IfOk result (λ m. ArePlaces m (map (λ f. f.id.0) functions.now)) }
{
    let numbers = functions.iter().map(|f| f.id.0).collect::<Vec<u32>>(alloc)?;
    places_of(alloc, &numbers)
}

// The places of globals.
fn global_places(alloc: Global, globals: &[GlobalVar]) -> Result<Places, AllocError>
    ensures { IfOk result (λ m. ArePlaces m (map (λ g. g.id.0) globals.now)) }
{
    let numbers = globals.iter().map(|g| g.id.0).collect::<Vec<u32>>(alloc)?;
    places_of(alloc, &numbers)
}
