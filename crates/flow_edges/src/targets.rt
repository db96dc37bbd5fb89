// Where the value of an expression goes.
ghost use Rattle.std.specs.Prelude.{◌≡◌, ◌+◌, [], ◌∷◌, false, IfOk, OnOk, slice_get};
ghost use Rattle.std.specs.Option.{option_map_or};
ghost use Rattle.sides.specs.Carried.{scope_of, start_of};
ghost use Rattle.reach.specs.Contexts as contexts;
ghost use Rattle.sides.specs.Layouts.{IsLayout};
ghost use Rattle.sides.specs.ScopeView.{view_scope};
ghost use Rattle.typed_tree.specs.ExpressionTree.{view_expr};
ghost use Rattle.typed_tree.specs.TypedTree.{view_function};
ghost use Rattle.typed_tree.specs.TypedView.{view_typed};
ghost use Rattle.typed_tree.specs.WellFormedExpression.{ty_of};
ghost use Rattle.flow_edges.specs.Edges as is;
ghost use Rattle.flow_edges.specs.KeptItems.{AreItems};
ghost use Rattle.flow_edges.specs.Targets.{slots_in};

use crate::kept_items::KeptItems;
use crate::slot_numbers::behind;
use pt_base::FnId;
use sides::{Layout, Object, Scope};
use std::alloc::{AllocError, Global};
use typed_tree::{Typed, TypedFn, VarTy, is_struct};
use usages::{How, Usage};

// where an object begins, if there is one of this number
fn start_at(objects: &[Object], number: usize) -> Option<u64>
    ensures { slots_in result ≡ start_of (slice_get objects.now number) }
{
    let object = objects.get(number)?;
    Some(object.start)
}

// the slave has the function: it has a body and isn't marked `priv`
fn is_plain(f: &TypedFn) -> bool
    ensures { result ≡ contexts.is_plain (view_function f.now) }
{
    f.body.is_some() && !f.signature.privileged
}

// the parameter of this number is there, and marked
fn is_marked(f: &TypedFn, k: usize) -> bool
    ensures { result ≡ option_map_or (λ p. p.marked) (slice_get f.now.signature.params k) false }
{
    match f.signature.params.as_slice().get(k) {
        Some(param) => param.marked,
        None => false,
    }
}

// a host that isn't privileged has a result, which may be this argument
fn mixes(f: &TypedFn, k: usize) -> bool
    ensures { result ≡ is.mixes (view_function f.now) k }
{
    f.body.is_none() && !f.signature.privileged && f.signature.result.is_some() && is_marked(f, k)
}

// the slot of what a function or host returns
fn result_slot(layout: &Layout, f: FnId) -> Result<Option<u64>, AllocError>
    ensures { IfOk result (λ s. slots_in s ≡ (layout.now.results + f.0) ∷ []) }
{
    let slot = behind(layout.results, u64::from(f.0))?;
    Ok(Some(slot))
}

// where the argument of this number of a call goes
fn passed_slot(t: &Typed, layout: &Layout, g: FnId, k: usize) -> Result<Option<u64>, AllocError>
    requires { IsLayout (view_typed t.now) layout.now }
    ensures { IfOk result (λ s. slots_in s ≡ is.passed_slots (view_typed t.now) g k) }
{
    let Some(function) = t.functions.get(g.0 as usize) else {
        return Ok(None);
    };
    if is_plain(function) {
        return Ok(start_at(layout.variables_of(t, g), k));
    }
    if !mixes(function, k) {
        return Ok(None);
    }
    result_slot(layout, g)
}

// where a value of this type goes that an object begins with
fn begun_slot(
    alloc: Global,
    scope: &Scope<'_>,
    number: usize,
    k: usize,
    ty: Option<VarTy>,
    items: &mut KeptItems,
) -> Result<Option<u64>, AllocError>
    requires { AreItems scope.now.structs.now items.old }
    ensures slot { IfOk result (λ s. slots_in s ≡ is.begun_slots (view_scope scope.now) (slice_get scope.now.variables.now number) k ty) }
    ensures items { OnOk result (AreItems scope.now.structs.now items.new) }
{
    let Some(object) = scope.variables.get(number) else {
        return Ok(None);
    };
    if is_struct(ty) {
        return Ok(Some(object.start));
    }
    let slot = items.slot(alloc, scope, *object, k)?;
    Ok(Some(slot))
}

/// Where the value of an expression in the body of a function goes.
pub fn target_slot(
    alloc: Global,
    t: &Typed,
    layout: &Layout,
    scope: &Scope<'_>,
    f: FnId,
    usage: &Usage<'_>,
    items: &mut KeptItems,
) -> Result<Option<u64>, AllocError>
    requires layout { IsLayout (view_typed t.now) layout.now }
    requires scope { view_scope scope.now ≡ scope_of (view_typed t.now) f.0 }
    requires items { AreItems scope.now.structs.now items.old }
    ensures slot { IfOk result (λ s. slots_in s ≡ is.target_slots (view_typed t.now) f.0 usage.now.how (ty_of (view_expr usage.now.value.now))) }
    ensures items { OnOk result (AreItems scope.now.structs.now items.new) }
{
    match usage.how {
        How::Kept | How::Operated => Ok(None),
        How::Passed(g, k) => passed_slot(t, layout, g, k),
        How::Begins(v, k) => begun_slot(alloc, scope, v.0 as usize, k, usage.value.ty, items),
        How::Returned => result_slot(layout, f),
    }
}
