// The variables and globals of which slots are parts.
ghost use Rattle.std.specs.Prelude.{◌≡◌, option_copied};
ghost use Rattle.typed_tree.specs.TypedView.{view_typed};
ghost use Rattle.flow_check.specs.Kept.{owner_in};
ghost use Rattle.flow_check.specs.Shown as is;

use pt_base::{FnId, GlobalId, VarId};
use sides::{Owner, SlotInfo};
use typed_tree::{Typed, Var};

// the variable of this number of a function
fn variable_at(t: &Typed, function: FnId, var: VarId) -> Option<&Var>
    ensures { option_copied result ≡ is.variable_of (view_typed t.now) (Owner.Variable function var) }
{
    match t.functions.get(function.0 as usize) {
        Some(function) => function.vars.as_slice().get(var.0 as usize),
        None => None,
    }
}

// the global of this number
fn global_at(t: &Typed, global: GlobalId) -> Option<&Var>
    ensures { option_copied result ≡ is.variable_of (view_typed t.now) (Owner.Global global) }
{
    match t.globals.as_slice().get(global.0 as usize) {
        Some(global) => Some(&global.var),
        None => None,
    }
}

/// The variable or global of which a slot is a part; None where it is what a function returns.
pub fn variable_of(t: &Typed, owner: Owner) -> Option<&Var>
    ensures { option_copied result ≡ is.variable_of (view_typed t.now) owner }
{
    match owner {
        Owner::Variable { function, var } => variable_at(t, function, var),
        Owner::Global(global) => global_at(t, global),
        Owner::Result(_) => None,
    }
}

// where the name of what this is begins
fn owner_name(t: &Typed, owner: Owner) -> u32
    ensures { result ≡ is.name_at (view_typed t.now) owner }
{
    match variable_of(t, owner) {
        Some(variable) => variable.span.from,
        None => 0,
    }
}

/// Where the name of a slot's variable begins; 0 where it is of none.
pub(crate) fn name_at(t: &Typed, slots: &[SlotInfo], slot: u64) -> u32
    ensures { result ≡ is.name_at (view_typed t.now) (owner_in slots.now slot) }
{
    match slots.get(slot as usize) {
        Some(info) => owner_name(t, info.owner),
        None => 0,
    }
}
