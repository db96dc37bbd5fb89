// The slots that an expression carries.
ghost use Rattle.std.specs.Prelude.{◌≡◌, ◌++◌, ◌+◌, ◌≤◌, [], ◌∷◌, IfOk, OnOk, drop, length, map, option_map, slice_get, take};
ghost use Rattle.typed_tree.specs.ExpressionTree as t;
ghost use Rattle.typed_tree.specs.ExpressionTree.{view_expr, view_link, view_place, view_root, view_step, link_trees, step_trees};
ghost use Rattle.sides.specs.Carried as is;
ghost use Rattle.sides.specs.Moved.{moved, link_moved, links_moved};
ghost use Rattle.sides.specs.ScopeView.{view_scope};

use crate::objects::Object;
use crate::scope::Scope;
use crate::types::{assigned, field, item, pointee};
use pt_base::{FnId, sum};
use std::alloc::{AllocError, Global};
use typed_tree::{Form, LinkStep, Place, PlaceStep, Root, TypedExpr, TypedLink, VarTy, is_pointer};
use usages::keeps_value;

// the type of an object, where there is one
fn object_type(objects: &[Object], number: u32) -> Option<VarTy>
    ensures { result ≡ option_map (λ x. x.ty) (slice_get objects.now number) }
{
    let object = objects.get(number as usize)?;
    Some(object.ty)
}

// the type of where a place begins
fn root_type(scope: &Scope<'_>, root: &Root) -> Option<VarTy>
    ensures { result ≡ is.root_type (view_scope scope.now) (view_root root.now) }
{
    match root {
        Root::Local(var) => object_type(scope.variables, var.0),
        Root::Global(global) => object_type(scope.globals, global.0),
        Root::Deref { pointer, .. } => pointee(pointer.ty),
        Root::Assigned(assignment) => assigned(assignment),
    }
}

// the type of a part
fn step_type(scope: &Scope<'_>, ty: Option<VarTy>, step: &PlaceStep) -> Option<VarTy>
    ensures { result ≡ is.step_type scope.now.structs.now ty (view_step step.now) }
{
    match step {
        PlaceStep::Field(number) => field(scope.structs, ty, *number),
        PlaceStep::Item { .. } => item(ty),
    }
}

// how far behind an object's first leaf that of a field stands
fn field_offset(scope: &Scope<'_>, ty: Option<VarTy>, field: u32) -> u64
    ensures { result ≡ is.step_offset scope.now.structs.now ty (t.field field) }
{
    match ty {
        Some(VarTy::Struct(n)) => scope.table.start(n, field),
        Some(VarTy::Int(_)) | Some(VarTy::Array { .. }) | Some(VarTy::Pointer { .. }) | None => 0,
    }
}

// the same of a part
fn step_offset(scope: &Scope<'_>, ty: Option<VarTy>, step: &PlaceStep) -> u64
    ensures { result ≡ is.step_offset scope.now.structs.now ty (view_step step.now) }
{
    match step {
        PlaceStep::Field(number) => field_offset(scope, ty, *number),
        PlaceStep::Item { .. } => 0,
    }
}

// the same of what several steps lead to
fn steps_offset(
    scope: &Scope<'_>,
    root: Option<VarTy>,
    steps: &[PlaceStep],
) -> Result<u64, AllocError>
    ensures { IfOk result (λ n. n ≡ is.steps_offset scope.now.structs.now root (step_trees (map view_step steps.now))) }
{
    let mut ty = root;
    let mut offset = 0;
    for step in steps {
        offset = sum(offset, step_offset(scope, ty, step))?;
        ty = step_type(scope, ty, step);
    }
    Ok(offset)
}

// the slot so far behind this one
fn add_slot(slot: u64, behind: u64, slots: &mut Vec<u64>) -> Result<(), AllocError>
    ensures { OnOk result (slots.new.items ≡ slots.old.items ++ moved behind (slot ∷ [])) }
{
    slots.push(sum(slot, behind)?)?;
    Ok(())
}

// the slot so far behind the first one of an object, where there is one
fn add_start(
    objects: &[Object],
    number: u32,
    behind: u64,
    slots: &mut Vec<u64>,
) -> Result<(), AllocError>
    ensures { OnOk result (slots.new.items ≡ slots.old.items ++ moved behind (is.start_of (slice_get objects.now number))) }
{
    match objects.get(number as usize) {
        Some(object) => add_slot(object.start, behind, slots),
        None => Ok(()),
    }
}

// the slot so far behind that of what a function returns
fn add_result(
    scope: &Scope<'_>,
    callee: FnId,
    behind: u64,
    slots: &mut Vec<u64>,
) -> Result<(), AllocError>
    ensures { OnOk result (slots.new.items ≡ slots.old.items ++ moved behind ((scope.now.results + callee.0) ∷ [])) }
{
    let slot = sum(scope.results, u64::from(callee.0))?;
    add_slot(slot, behind, slots)
}

// appends the slots so far behind those that an expression carries
#[cycle(carried)]
fn add_carried(
    scope: &Scope<'_>,
    e: &TypedExpr,
    behind: u64,
    slots: &mut Vec<u64>,
) -> Result<(), AllocError>
    ensures { OnOk result (slots.new.items ≡ slots.old.items ++ moved behind (is.carried (view_scope scope.now) (view_expr e.now))) }
{
    match &e.form {
        Form::Constant(_) | Form::Null | Form::Unary(_, _) | Form::Discard(_) => Ok(()),
        Form::Logical(_, _, _) => Ok(()),
        Form::Read(place) => add_place(scope, place, behind, slots),
        Form::Decay(place) => add_place(scope, place, behind, slots),
        Form::Address(place) => add_place(scope, place, behind, slots),
        Form::Convert(a) => {
            if keeps_value(a.ty, e.ty) {
                add_carried(scope, a, behind, slots)
            } else {
                Ok(())
            }
        }
        Form::Chain(a, links) => {
            let before = slots.len();
            add_carried(scope, a, behind, slots)?;
            add_links(scope, links, behind, before, slots)
        }
        Form::Choice(_, yes, no) => {
            add_carried(scope, yes, behind, slots)?;
            add_carried(scope, no, behind, slots)
        }
        Form::Assign(place, _) => add_place(scope, place, behind, slots),
        Form::Compound { place, .. } => add_place(scope, place, behind, slots),
        Form::Step { place, .. } => {
            if is_pointer(e.ty) {
                add_place(scope, place, behind, slots)
            } else {
                Ok(())
            }
        }
        Form::Call(callee, _) => add_result(scope, *callee, behind, slots),
    }
}

// goes on along links from a value whose slots stand from the place `before` on
#[cycle(carried)]
fn add_links(
    scope: &Scope<'_>,
    links: &[TypedLink],
    behind: u64,
    before: usize,
    slots: &mut Vec<u64>,
) -> Result<(), AllocError>
    requires { before ≤ length slots.old.items }
    ensures { OnOk result (slots.new.items ≡ take before slots.old.items ++ links_moved (view_scope scope.now) behind (drop before slots.old.items) (link_trees (map view_link links.now))) }
{
    for link in links {
        add_link(scope, link, behind, before, slots)?;
    }
    Ok(())
}

// goes on along one link
#[cycle(carried)]
fn add_link(
    scope: &Scope<'_>,
    link: &TypedLink,
    behind: u64,
    before: usize,
    slots: &mut Vec<u64>,
) -> Result<(), AllocError>
    requires { before ≤ length slots.old.items }
    ensures kept { OnOk result (take before slots.new.items ≡ take before slots.old.items) }
    ensures long { OnOk result (before ≤ length slots.new.items) }
    ensures new { OnOk result (drop before slots.new.items ≡ link_moved (view_scope scope.now) behind (drop before slots.old.items) (view_link link.now)) }
{
    match link.step {
        LinkStep::Move { .. } => Ok(()),
        LinkStep::MoveBy => {
            slots.truncate(before);
            add_carried(scope, &link.operand, behind, slots)
        }
        LinkStep::Arithmetic(_, _)
        | LinkStep::Shift { .. }
        | LinkStep::Difference
        | LinkStep::Compare(_) => {
            slots.truncate(before);
            Ok(())
        }
    }
}

// the same of a place
#[cycle(carried)]
fn add_place(
    scope: &Scope<'_>,
    place: &Place,
    behind: u64,
    slots: &mut Vec<u64>,
) -> Result<(), AllocError>
    ensures { OnOk result (slots.new.items ≡ slots.old.items ++ moved behind (is.place_slots (view_scope scope.now) (view_place place.now))) }
{
    let ty = root_type(scope, &place.root);
    let by = steps_offset(scope, ty, &place.steps)?;
    let more = sum(by, behind)?;
    add_root(scope, &place.root, more, slots)
}

// the same of where a place begins
#[cycle(carried)]
fn add_root(
    scope: &Scope<'_>,
    root: &Root,
    behind: u64,
    slots: &mut Vec<u64>,
) -> Result<(), AllocError>
    ensures { OnOk result (slots.new.items ≡ slots.old.items ++ moved behind (is.root_slots (view_scope scope.now) (view_root root.now))) }
{
    match root {
        Root::Local(var) => add_start(scope.variables, var.0, behind, slots),
        Root::Global(global) => add_start(scope.globals, global.0, behind, slots),
        Root::Deref { pointer, .. } => add_carried(scope, pointer, behind, slots),
        Root::Assigned(assignment) => add_carried(scope, assignment, behind, slots),
    }
}

/// The slots that an expression in the body of a function carries: those of the values of which its
/// value may be without a change, in the order of the text and with repeats. Where a value has several
/// leaves, the slot of the first one stands for all.
pub fn carried_slots(
    alloc: Global,
    scope: &Scope<'_>,
    e: &TypedExpr,
) -> Result<Vec<u64>, AllocError>
    ensures { IfOk result (λ v. v.items ≡ is.carried (view_scope scope.now) (view_expr e.now)) }
{
    let mut slots = Vec::new(alloc);
    add_carried(scope, e, 0, &mut slots)?;
    Ok(slots)
}

/// The slots that a place in the body of a function carries: for each object that it may be, that of its
/// first leaf.
pub fn place_slots(alloc: Global, scope: &Scope<'_>, place: &Place) -> Result<Vec<u64>, AllocError>
    ensures { IfOk result (λ v. v.items ≡ is.place_slots (view_scope scope.now) (view_place place.now)) }
{
    let mut slots = Vec::new(alloc);
    add_place(scope, place, 0, &mut slots)?;
    Ok(slots)
}
