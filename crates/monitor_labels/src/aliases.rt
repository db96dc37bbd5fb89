// What may be one object behind several names.
ghost use Rattle.std.specs.Prelude.{◌≡◌, ◌++◌, OnOk, map, take};
ghost use Rattle.monitor_labels.specs.Arrows as arrows;
ghost use Rattle.monitor_labels.specs.Labels.{edges_along};
ghost use Rattle.monitor_labels.specs.Nodes.{of_global, of_variable, slot_of};
ghost use Rattle.monitor_labels.specs.Seeds.{node_if};
ghost use Rattle.monitor_labels.specs.Scopes.{IsScope, function_of, pair_edges, program_of};

use crate::reads::add_edge;
use crate::scope::{Scope, signature_of};
use crate::search::entry_of;
use pt_base::{Edge, Slot, VarId, next_number};
use pt_core::Entry;
use std::alloc::{AllocError, Global};
use typed_tree::{Var, is_pointer};

// adds the node of a variable, where it is a pointer
fn add_pointer(
    scope: &Scope<'_>,
    v: VarId,
    var: &Var,
    slots: &mut Vec<Slot>,
) -> Result<(), AllocError>
    requires { IsScope scope.now }
    ensures { OnOk result (slots.new.items ≡ slots.old.items ++ map (λ n. slot_of (program_of scope.now) n) (node_if (arrows.is_pointer var.now) (of_variable (function_of scope.now).id v.0))) }
{
    if is_pointer(Some(var.ty)) {
        let slot = scope.variable(v)?;
        slots.push(slot)?;
    }
    Ok(())
}

// the first variables of the function: so many, or all if there are fewer
fn first_variables<'a>(scope: &Scope<'a>, count: usize) -> &'a [Var]
    ensures { result.now ≡ take count (function_of scope.now).vars }
{
    let vars = scope.function.vars.as_slice();
    if count < vars.len() {
        &vars[..count]
    } else {
        vars
    }
}

// the parameters that are pointers
fn add_pointer_parameters(scope: &Scope<'_>, slots: &mut Vec<Slot>) -> Result<(), AllocError>
    requires { IsScope scope.now }
    ensures { OnOk result (slots.new.items ≡ slots.old.items ++ map (λ n. slot_of (program_of scope.now) n) (arrows.pointer_parameters (function_of scope.now))) }
{
    let count = usize::from(scope.function.params);
    let vars = first_variables(scope, count);
    let mut number: u32 = 0;
    for var in vars {
        add_pointer(scope, VarId(number), var, slots)?;
        number = next_number(number)?;
    }
    Ok(())
}

// the globals that an entry binds
fn add_bound(scope: &Scope<'_>, entry: &Entry, slots: &mut Vec<Slot>) -> Result<(), AllocError>
    requires { IsScope scope.now }
    ensures { OnOk result (slots.new.items ≡ slots.old.items ++ map (λ n. slot_of (program_of scope.now) n) (map (λ b. of_global b.global.0) entry.now.shared)) }
{
    let binds = entry.shared.as_slice();
    for bind in binds {
        let slot = scope.global(bind.global)?;
        slots.push(slot)?;
    }
    Ok(())
}

// those that the function's own entry binds, where it is one
fn add_bound_globals(scope: &Scope<'_>, slots: &mut Vec<Slot>) -> Result<(), AllocError>
    requires { IsScope scope.now }
    ensures { OnOk result (slots.new.items ≡ slots.old.items ++ map (λ n. slot_of (program_of scope.now) n) (arrows.bound_globals (program_of scope.now) (function_of scope.now).id)) }
{
    let own = scope.function.id;
    match entry_of(scope.program.entries.as_slice(), own) {
        Some(entry) => add_bound(scope, entry, slots),
        None => Ok(()),
    }
}

// both ways between one and each of the others
fn add_joined_to(slot: Slot, others: &[Slot], edges: &mut Vec<Edge>) -> Result<(), AllocError>
    ensures { OnOk result (edges.new.items ≡ edges.old.items ++ pair_edges (arrows.joined_to slot others.now)) }
{
    for other in others {
        add_edge(slot, *other, edges)?;
        add_edge(*other, slot, edges)?;
    }
    Ok(())
}

// between each and each other one
fn add_joined(slots: &[Slot], edges: &mut Vec<Edge>) -> Result<(), AllocError>
    ensures { OnOk result (edges.new.items ≡ edges.old.items ++ pair_edges (arrows.joined_pairs slots.now)) }
{
    let mut rest = slots;
    while let [first, after @ ..] = rest {
        add_joined_to(*first, after, edges)?;
        rest = after;
    }
    Ok(())
}

/// Adds edges between all pointers that are parameters of the function and all globals that its entry binds, where
/// it is privileged: they may lead to one object.
pub(crate) fn add_aliases(
    alloc: Global,
    scope: &Scope<'_>,
    edges: &mut Vec<Edge>,
) -> Result<(), AllocError>
    requires { IsScope scope.now }
    ensures { OnOk result (edges.new.items ≡ edges.old.items ++ edges_along (program_of scope.now) (arrows.alias_arrows (program_of scope.now) (function_of scope.now))) }
{
    let own = scope.function.id;
    let signature = signature_of(scope.program, own)?;
    if !signature.privileged {
        return Ok(());
    }
    let mut slots = Vec::new(alloc);
    add_pointer_parameters(scope, &mut slots)?;
    add_bound_globals(scope, &mut slots)?;
    add_joined(&slots, edges)
}
