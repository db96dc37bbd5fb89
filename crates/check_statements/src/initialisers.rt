// What a local variable starts with (C99 6.7.8).
ghost use Rattle.std.specs.Prelude.{◌≡◌, ◌&&◌, is_some, slice_get, map, not};
ghost use Rattle.type_rules.specs.Types.{is_bad};
ghost use Rattle.pt_tree.specs.ExpressionTree.{view_expr, expr_trees};
ghost use Rattle.pt_tree.specs.StatementTree.{view_init, braces as braces_tree};
ghost use Rattle.check_statements.specs.Gives.{GivesInitialised, GivesListing, GivesPlaced, progress_of, state_of};
ghost use Rattle.check_statements.specs.Initialisers as is;
ghost use Rattle.check_statements.specs.Leaves.{leaves_of};

use crate::leaves::first_leaves;
use crate::outermost::{evaluated, fitted};
use crate::walk::Walk;
use check_declarations::{FaultKind, note_if};
use check_expressions::{Names, span_of};
use pt_base::{Listed, Span};
use pt_tree::{Expr, Initializer};
use std::alloc::{AllocError, Global};
use type_rules::Type;
use typed_tree::{ExprId, TypedInit};

/// What a variable of this type starts with.
pub(crate) fn initialised(
    alloc: Global,
    names: &Names,
    walk: &mut Walk,
    ty: Type,
    init: &Option<Initializer>,
) -> Result<TypedInit, AllocError>
    ensures { GivesInitialised result (progress_of names.now walk.old) (progress_of names.now walk.new) (is.initialised (state_of names.now walk.old) ty (view_init init.now)) }
{
    match init {
        None => Ok(TypedInit::Nothing),
        Some(init) => given(alloc, names, walk, ty, init),
    }
}

fn given(
    alloc: Global,
    names: &Names,
    walk: &mut Walk,
    ty: Type,
    init: &Initializer,
) -> Result<TypedInit, AllocError>
    ensures { GivesInitialised result (progress_of names.now walk.old) (progress_of names.now walk.new) (is.initialised (state_of names.now walk.old) ty (view_init (Some init.now))) }
{
    match init {
        Initializer::Single(e) => {
            let id = fitted(alloc, names, walk, ty, e)?;
            Ok(TypedInit::Value(id))
        }
        Initializer::Braces(span, es) => braces(alloc, names, walk, ty, *span, es),
    }
}

/// A brace list.
fn braces(
    alloc: Global,
    names: &Names,
    walk: &mut Walk,
    ty: Type,
    span: Span,
    es: &[Expr],
) -> Result<TypedInit, AllocError>
    ensures { GivesInitialised result (progress_of names.now walk.old) (progress_of names.now walk.new) (is.initialised (state_of names.now walk.old) ty (braces_tree span (expr_trees (map view_expr es.now)))) }
{
    let ids = filled(alloc, names, walk, ty, es)?;
    Ok(TypedInit::Items(span, Listed::new(ids)))
}

/// The items of a brace list of an object of this type.
fn filled(
    alloc: Global,
    names: &Names,
    walk: &mut Walk,
    ty: Type,
    es: &[Expr],
) -> Result<Vec<ExprId>, AllocError>
    ensures { GivesListing result (progress_of names.now walk.old) (progress_of names.now walk.new) (is.items (state_of names.now walk.old) (leaves_of walk.old.findings.structs ty) (not (is_bad ty)) 0 (expr_trees (map view_expr es.now))) }
{
    let leaves = first_leaves(alloc, &walk.findings.structs, ty, es.len())?;
    items(alloc, names, walk, &leaves, is_sound(ty), es)
}

/// Whether the type isn't Bad.
pub(crate) fn is_sound(ty: Type) -> bool
    ensures { result ≡ not (is_bad ty) }
{
    !matches!(ty, Type::Bad)
}

/// The items of a brace list, each for the leaf with its number. The first one past the last leaf is a
/// fault where `is_counted` holds.
fn items(
    alloc: Global,
    names: &Names,
    walk: &mut Walk,
    leaves: &[Type],
    is_counted: bool,
    es: &[Expr],
) -> Result<Vec<ExprId>, AllocError>
    ensures { GivesListing result (progress_of names.now walk.old) (progress_of names.now walk.new) (is.items (state_of names.now walk.old) leaves.now is_counted 0 (expr_trees (map view_expr es.now))) }
{
    let mut ids = Vec::with_capacity(alloc, es.len())?;
    let mut counts = is_counted;
    let mut n = 0;
    for e in es {
        ids.push(item(alloc, names, walk, leaf_at(leaves, n), counts, e)?)?;
        counts = is_still_counted(counts, leaves, n);
        n += 1;
    }
    Ok(ids)
}

/// Whether the items behind the one with this number are counted: an item without a leaf is the last
/// that is.
pub(crate) fn is_still_counted(is_counted: bool, leaves: &[Type], n: usize) -> bool
    ensures { result ≡ (is_counted && is_some (slice_get leaves.now n)) }
{
    is_counted && leaves.get(n).is_some()
}

/// The leaf with this number, where there is one.
pub(crate) fn leaf_at(leaves: &[Type], n: usize) -> Option<Type>
    ensures { result ≡ slice_get leaves.now n }
{
    leaves.get(n).copied()
}

/// An item for this leaf. An item without a leaf is judged, and is one too many where `is_excess`
/// holds.
fn item(
    alloc: Global,
    names: &Names,
    walk: &mut Walk,
    leaf: Option<Type>,
    is_excess: bool,
    e: &Expr,
) -> Result<ExprId, AllocError>
    ensures { GivesPlaced result (progress_of names.now walk.old) (progress_of names.now walk.new) (is.item (state_of names.now walk.old) leaf is_excess (view_expr e.now)) }
{
    match leaf {
        Some(ty) => fitted(alloc, names, walk, ty, e),
        None => {
            let id = evaluated(alloc, names, walk, e)?;
            note_if(
                &mut walk.findings.faults,
                is_excess,
                FaultKind::WrongType,
                span_of(e),
            )?;
            Ok(id)
        }
    }
}
