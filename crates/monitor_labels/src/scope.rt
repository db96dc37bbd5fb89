// What the labels of a function are found by.
ghost use Rattle.std.specs.Prelude.{◌≡◌, ◌+◌, IfOk, Some, option_map, slice_get};
ghost use Rattle.pt_core.specs.Calls as calls;
ghost use Rattle.pt_core.specs.CodeTree.{view_monitor};
ghost use Rattle.pt_core.specs.WellFormed.{monitor_program};
ghost use Rattle.monitor_labels.specs.Arrows as arrows;
ghost use Rattle.monitor_labels.specs.Nodes.{of_variable, of_result, of_global, slot_of};
ghost use Rattle.monitor_labels.specs.NodesView.{AreNodes};
ghost use Rattle.monitor_labels.specs.Scopes.{IsScope, function_of, program_of};
ghost use Rattle.monitor_labels.specs.Searching.{IsOrdered};

use crate::nodes::Nodes;
use crate::search::{function_place, global_place, signature_place};
use pt_base::{FnId, GlobalId, Slot, VarId, sum};
use pt_core::{CoreFn, MonitorProgram};
use pt_tree::Signature;
use std::alloc::AllocError;
use typed_tree::is_pointer;

/// A function, and the nodes that it has.
#[derive(Clone, Copy)]
pub(crate) struct Scope<'a> {
    pub program: &'a MonitorProgram,
    pub nodes: &'a Nodes,
    pub function: &'a CoreFn,
    /// The number of its first variable's node.
    pub variables: u64,
    /// What it gives.
    pub result: Slot,
    /// Whether, and how often, its statements are done.
    pub control: Slot,
}

// the number at this place
fn number_at(numbers: &[u64], place: usize) -> Result<u64, AllocError>
    ensures { IfOk result (λ n. slice_get numbers.now place ≡ Some n) }
{
    match numbers.get(place) {
        Some(number) => Ok(*number),
        None => Err(AllocError),
    }
}

// the node that this number is behind the first one of
fn slot_behind(from: u64, number: u64) -> Result<Slot, AllocError>
    ensures { IfOk result (λ s. s.0 ≡ from + number) }
{
    Ok(Slot(sum(from, number)?))
}

/// What a function or host is called with. What has no signature is want of memory: in a well-formed program
/// there is none, here and below.
pub(crate) fn signature_of(p: &MonitorProgram, f: FnId) -> Result<&Signature, AllocError>
    requires { IsOrdered (view_monitor p.now) }
    ensures { IfOk result (λ s. s.now ≡ calls.signature_in (monitor_program (view_monitor p.now)) f.0) }
{
    let signatures = p.signatures.as_slice();
    match signature_place(signatures, f) {
        Some(place) => Ok(&signatures[place].1),
        None => Err(AllocError),
    }
}

/// The node of what a function or host gives.
pub(crate) fn result_of(p: &MonitorProgram, nodes: &Nodes, f: FnId) -> Result<Slot, AllocError>
    requires ordered { IsOrdered (view_monitor p.now) }
    requires nodes { AreNodes (view_monitor p.now) nodes.now }
    ensures { IfOk result (λ s. s ≡ slot_of (view_monitor p.now) (of_result f.0)) }
{
    let Some(place) = signature_place(p.signatures.as_slice(), f) else {
        return Err(AllocError);
    };
    let number = number_at(&nodes.places.results.starts, place)?;
    Ok(Slot(number))
}

/// The scope of a function.
pub(crate) fn scope_of<'a>(
    p: &'a MonitorProgram,
    nodes: &'a Nodes,
    f: FnId,
) -> Result<Scope<'a>, AllocError>
    requires ordered { IsOrdered (view_monitor p.now) }
    requires nodes { AreNodes (view_monitor p.now) nodes.now }
    ensures is { IfOk result (λ s. IsScope s) }
    ensures program { IfOk result (λ s. program_of s ≡ view_monitor p.now) }
    ensures function { IfOk result (λ s. function_of s ≡ calls.function_in (monitor_program (view_monitor p.now)) f.0) }
    ensures number { IfOk result (λ s. (function_of s).id ≡ f.0) }
{
    let Some(place) = function_place(&p.functions, f) else {
        return Err(AllocError);
    };
    let variables = number_at(&nodes.places.variables.starts, place)?;
    let result = result_of(p, nodes, f)?;
    let control = slot_behind(nodes.places.controls, place as u64)?;
    Ok(Scope {
        program: p,
        nodes,
        function: &p.functions[place],
        variables,
        result,
        control,
    })
}

impl<'a> Scope<'a> {
    /// The node of a variable.
    pub fn variable(&self, v: VarId) -> Result<Slot, AllocError>
        requires { IsScope self.now }
        ensures { IfOk result (λ s. s ≡ slot_of (program_of self.now) (of_variable (function_of self.now).id v.0)) }
    {
        let slot = slot_behind(self.variables, u64::from(v.0))?;
        Ok(slot)
    }

    /// The node of a global.
    pub fn global(&self, g: GlobalId) -> Result<Slot, AllocError>
        requires { IsScope self.now }
        ensures { IfOk result (λ s. s ≡ slot_of (program_of self.now) (of_global g.0)) }
    {
        let Some(place) = global_place(self.program.globals.as_slice(), g) else {
            return Err(AllocError);
        };
        let slot = slot_behind(self.nodes.places.globals, place as u64)?;
        Ok(slot)
    }

    /// The node of the variable that a result goes to, if there is one.
    pub fn receiver(&self, v: Option<VarId>) -> Result<Option<Slot>, AllocError>
        requires { IsScope self.now }
        ensures { IfOk result (λ o. o ≡ option_map (λ n. slot_of (program_of self.now) n) (option_map (of_variable (function_of self.now).id) (option_map (λ x. x.0) v))) }
    {
        match v {
            Some(v) => Ok(Some(self.variable(v)?)),
            None => Ok(None),
        }
    }

    /// Whether the variable of this number is a pointer.
    pub fn is_pointer_variable(&self, v: VarId) -> bool
        ensures { result ≡ arrows.is_pointer_variable (function_of self.now) v.0 }
    {
        match self.function.vars.as_slice().get(v.0 as usize) {
            Some(var) => is_pointer(Some(var.ty)),
            None => false,
        }
    }
}
