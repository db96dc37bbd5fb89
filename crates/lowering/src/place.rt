// Places of the normal form at which objects of the source lie.
ghost use Rattle.std.specs.Prelude.{◌≡◌, ℕ, [], ◌∷◌, IfOk, OnOk};
ghost use Rattle.typed_tree.specs.ExpressionTree as t;
ghost use Rattle.pt_core.specs.CodeTree as core;
ghost use Rattle.pt_core.specs.CodeTree.{view_expr};
ghost use Rattle.lowering.specs.Lowered as lowered;
ghost use Rattle.lowering.specs.Lowered.{Temp, Lowered, LoweredPlace, hold, temp_place};
ghost use Rattle.lowering.specs.Expressions as is;
ghost use Rattle.lowering.specs.Names.{scope_of};
ghost use Rattle.lowering.specs.Output.{Output, output_of, next, added, temporary_of, found, view_found, Finds};

use crate::names::Names;
use crate::output::{Lowering, local, temp};
use crate::temporary::Temporary;
use crate::types::{decayed_type, points_to_const, type_of};
use pt_base::{GlobalId, Span, VarId};
use pt_core::{Expr, Place, Root, Stmt, pointee_type};
use std::alloc::{AllocError, Global};
use typed_tree::{TypedExpr, VarTy};

/// A place and what it designates: the object's type, and where a pointer leads there, what keeps
/// that pointer and whether it points to const.
#[derive(Drop)]
pub struct FoundPlace {
    pub place: Place,
    pub ty: VarTy,
    pub fixed: bool,
    pub through: Option<Temporary>,
}

/// A variable.
pub fn variable(alloc: Global, names: &Names<'_>, v: VarId) -> FoundPlace
    ensures { (n : ℕ) → view_found result ≡ found (is.root_in (scope_of names.now) (t.local v) n) }
{
    FoundPlace {
        place: local(alloc, v),
        ty: names.variable_type(v),
        fixed: false,
        through: None,
    }
}

/// A global.
pub fn global(alloc: Global, names: &Names<'_>, g: GlobalId) -> FoundPlace
    ensures { (n : ℕ) → view_found result ≡ found (is.root_in (scope_of names.now) (t.global g) n) }
{
    FoundPlace {
        place: Place {
            root: Root::Global(g),
            path: Vec::new(alloc),
        },
        ty: names.global_type(g),
        fixed: false,
        through: None,
    }
}

/// What stands for the object of an expression that gives none.
pub fn no_object(alloc: Global, ty: VarTy) -> FoundPlace
    ensures { view_found result ≡ found (is.named_place (t.local (record { 0 = 0 })) ty (temp_place 0)) }
{
    FoundPlace {
        place: local(alloc, VarId(0)),
        ty,
        fixed: false,
        through: None,
    }
}

/// What the value of a pointer points to.
pub fn behind(
    alloc: Global,
    span: Span,
    pointer: &TypedExpr,
    value: Expr,
) -> Result<FoundPlace, AllocError>
    ensures { (low : Lowered) → view_expr value ≡ low.value → IfOk result (λ p. view_found p ≡ found (is.behind span (t.view_expr pointer.now) low)) }
{
    let ty = type_of(pointer);
    Ok(FoundPlace {
        place: Place {
            root: Root::deref(alloc, value, span)?,
            path: Vec::new(alloc),
        },
        ty: pointee_type(ty),
        fixed: points_to_const(ty),
        through: Some(Temporary::holding(ty, pointer.span)),
    })
}

/// A field of an object.
pub fn field(names: &Names<'_>, field: u32, whole: FoundPlace) -> Result<FoundPlace, AllocError>
    ensures { (low : LoweredPlace) → view_found whole ≡ found low → IfOk result (λ p. view_found p ≡ found (is.field_in (scope_of names.now) field low)) }
{
    let ty = names.field_type(whole.ty, field);
    Ok(FoundPlace {
        place: with_field(whole.place, field)?,
        ty,
        fixed: whole.fixed,
        through: whole.through,
    })
}

// the field of a place
pub(crate) fn with_field(whole: Place, field: u32) -> Result<Place, AllocError>
    ensures { IfOk result (λ p. core.view_place p ≡ is.place_with_field (core.view_place whole) field) }
{
    let mut part = whole;
    part.path.push(field)?;
    Ok(part)
}

/// An element of an array, which lies where this pointer leads when it is moved by the index. The
/// pointer has the type of the decayed array.
pub fn element(
    alloc: Global,
    span: Span,
    ty: VarTy,
    base: Expr,
    index: Expr,
) -> Result<FoundPlace, AllocError>
    ensures { (first e : t.ExprTree) (b v : Lowered) → view_expr base ≡ b.value → view_expr index ≡ v.value → IfOk result (λ p. view_found p ≡ found (is.element_place span first e ty b v)) }
{
    let pointer = Expr::moved(alloc, base, index, false, span)?;
    Ok(FoundPlace {
        place: Place {
            root: Root::deref(alloc, pointer, span)?,
            path: Vec::new(alloc),
        },
        ty: pointee_type(ty),
        fixed: points_to_const(ty),
        through: Some(Temporary::holding(ty, span)),
    })
}

/// A place whose pointer is held and dereferenced once, where `is_fixed` holds.
pub fn fixed_if(
    alloc: Global,
    is_fixed: bool,
    place: FoundPlace,
    lowering: &mut Lowering,
) -> Result<FoundPlace, AllocError>
    ensures { (o : Output) (low : LoweredPlace) → Finds o low (output_of lowering.old) (view_found place) → IfOk result (λ p. Finds o (is.fixed_if is_fixed (next o) low) (output_of lowering.new) (view_found p)) }
{
    if is_fixed {
        fixed(alloc, place, lowering)
    } else {
        Ok(place)
    }
}

// a place whose pointer, if one leads there, is held and dereferenced once
fn fixed(
    alloc: Global,
    place: FoundPlace,
    lowering: &mut Lowering,
) -> Result<FoundPlace, AllocError>
    ensures { (o : Output) (low : LoweredPlace) → Finds o low (output_of lowering.old) (view_found place) → IfOk result (λ p. Finds o (is.fixed_through (next o) low.through low) (output_of lowering.new) (view_found p)) }
{
    match place.through {
        Some(temporary) => fixed_root(alloc, temporary, place, lowering),
        None => Ok(place),
    }
}

// the same where this temporary keeps the pointer
fn fixed_root(
    alloc: Global,
    temporary: Temporary,
    place: FoundPlace,
    lowering: &mut Lowering,
) -> Result<FoundPlace, AllocError>
    ensures { (o : Output) (x : Temp) (low : LoweredPlace) → Finds o low (output_of lowering.old) (view_found place) → temporary_of x ≡ temporary → IfOk result (λ p. Finds o (is.fixed_root (next o) x low low.place) (output_of lowering.new) (view_found p)) }
{
    let mut found = place;
    match &mut found.place.root {
        Root::Deref { pointer, .. } => hold_pointer(alloc, temporary, pointer, lowering)?,
        Root::Local(_) | Root::Global(_) => return Ok(found),
    }
    lowering.add(Stmt::Check {
        place: found.place.copy(alloc)?,
    })?;
    Ok(found)
}

// holds a pointer in a temporary, whose value then stands in its stead
fn hold_pointer(
    alloc: Global,
    temporary: Temporary,
    pointer: &mut Box<Expr>,
    lowering: &mut Lowering,
) -> Result<(), AllocError>
    ensures pointer { OnOk result (view_expr pointer.new.value ≡ lowered.temp (next (output_of lowering.old))) }
    ensures output { OnOk result (output_of lowering.new ≡ added (output_of lowering.old) (hold (next (output_of lowering.old)) (view_expr pointer.old.value) ∷ []) (temporary ∷ [])) }
{
    let k = lowering.claim(temporary)?;
    let value = Box::replace(pointer, temp(alloc, k));
    lowering.give(alloc, k, value)
}
