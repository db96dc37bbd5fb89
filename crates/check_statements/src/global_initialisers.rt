// What a global starts with (C99 6.7.8p4): numbers.
ghost use Rattle.std.specs.Prelude.{◌≡◌, ◌++◌, not, slice_get, map, OnOk};
ghost use Rattle.type_rules.specs.Types.{is_bad};
ghost use Rattle.pt_tree.specs.ExpressionTree.{view_expr, expr_trees};
ghost use Rattle.pt_tree.specs.StatementTree.{view_init, single, braces};
ghost use Rattle.check_expressions.specs.EnvOf.{env_of};
ghost use Rattle.check_statements.specs.Constants.{number_of as number};
ghost use Rattle.check_statements.specs.Gives.{AddsValues, GivesGlobal};
ghost use Rattle.check_statements.specs.GlobalInitialisers as is;
ghost use Rattle.check_statements.specs.Leaves.{leaves_of};

use crate::constants::{Number, number_of};
use crate::initialisers::{is_sound, is_still_counted, leaf_at};
use crate::leaves::first_leaves;
use check_declarations::{FaultKind, Findings, TypeFault, note_if};
use check_expressions::{Names, expression, is_misfit, span_of};
use pt_int::convert;
use pt_tree::{Expr, Initializer};
use std::alloc::{AllocError, Global};
use type_rules::{Type, Value};

/// What a global of this type starts with: the values of its first leaves in order, as many as the
/// initialiser gives. Its further leaves start with 0.
pub fn global_values(
    alloc: Global,
    names: &Names,
    findings: &mut Findings,
    ty: Type,
    init: &Option<Initializer>,
) -> Result<Vec<i128>, AllocError>
    ensures { GivesGlobal result findings.old findings.new (is.global_initialised (env_of names.now) findings.old.structs ty (view_init init.now)) }
{
    match init {
        None => Ok(Vec::new(alloc)),
        Some(init) => given_values(alloc, names, findings, ty, init),
    }
}

fn given_values(
    alloc: Global,
    names: &Names,
    findings: &mut Findings,
    ty: Type,
    init: &Initializer,
) -> Result<Vec<i128>, AllocError>
    ensures { GivesGlobal result findings.old findings.new (is.global_initialised (env_of names.now) findings.old.structs ty (view_init (Some init.now))) }
{
    match init {
        Initializer::Single(e) => {
            let mut values = Vec::new(alloc);
            add_item(alloc, names, findings, Some(ty), e, &mut values)?;
            Ok(values)
        }
        Initializer::Braces(_, es) => { filled_values(alloc, names, findings, ty, es) }
    }
}

/// The values of the items of a brace list of an object of this type.
fn filled_values(
    alloc: Global,
    names: &Names,
    findings: &mut Findings,
    ty: Type,
    es: &[Expr],
) -> Result<Vec<i128>, AllocError>
    ensures { GivesGlobal result findings.old findings.new (is.global_items (env_of names.now) findings.old.structs (leaves_of findings.old.structs ty) (not (is_bad ty)) 0 (expr_trees (map view_expr es.now))) }
{
    let leaves = first_leaves(alloc, &findings.structs, ty, es.len())?;
    item_values(alloc, names, findings, &leaves, is_sound(ty), es)
}

/// The values of the items of a brace list, each for the leaf with its number. The first item past the
/// last leaf is a fault where `is_counted` holds.
fn item_values(
    alloc: Global,
    names: &Names,
    findings: &mut Findings,
    leaves: &[Type],
    is_counted: bool,
    es: &[Expr],
) -> Result<Vec<i128>, AllocError>
    ensures { GivesGlobal result findings.old findings.new (is.global_items (env_of names.now) findings.old.structs leaves.now is_counted 0 (expr_trees (map view_expr es.now))) }
{
    let mut values = Vec::new(alloc);
    let mut counts = is_counted;
    let mut n = 0;
    for e in es {
        let leaf = leaf_at(leaves, n);
        add_item(alloc, names, findings, leaf, e, &mut values)?;
        note_excess(&mut findings.faults, counts, leaves, n, e)?;
        counts = is_still_counted(counts, leaves, n);
        n += 1;
    }
    Ok(values)
}

/// Adds a fault where the item with this number is the first past the last leaf.
fn note_excess(
    faults: &mut Vec<TypeFault>,
    is_counted: bool,
    leaves: &[Type],
    n: usize,
    e: &Expr,
) -> Result<(), AllocError>
    ensures { OnOk result (faults.new.items ≡ faults.old.items ++ is.excess_faults is_counted (slice_get leaves.now n) (view_expr e.now)) }
{
    let wrong = is_counted && leaves.get(n).is_none();
    note_if(faults, wrong, FaultKind::WrongType, span_of(e))
}

/// Adds the value of an item for this leaf: that of a constant, negated or not, else 0. Any other
/// expression is judged, and is out of the profile.
fn add_item(
    alloc: Global,
    names: &Names,
    findings: &mut Findings,
    leaf: Option<Type>,
    e: &Expr,
    values: &mut Vec<i128>,
) -> Result<(), AllocError>
    ensures { AddsValues result values.old.items values.new.items findings.old findings.new (is.item_of (env_of names.now) findings.old.structs leaf (view_expr e.now) (number (view_expr e.now))) }
{
    match number_of(e) {
        Some(n) => {
            let faults = &mut findings.faults;
            note_if(faults, misfit(leaf, n), FaultKind::WrongType, span_of(e))?;
            add_stored(values, leaf, n.value)
        }
        None => {
            let _ = expression(alloc, names, findings, e)?;
            note_if(
                &mut findings.faults,
                true,
                FaultKind::OutOfProfile,
                span_of(e),
            )?;
            add_stored(values, leaf, 0)
        }
    }
}

/// Whether a number isn't taken by the leaf.
fn misfit(leaf: Option<Type>, n: Number) -> bool
    ensures { result ≡ is.misfit leaf n }
{
    match leaf {
        None => false,
        Some(ty) => {
            let value = Value {
                ty: Type::Int(n.ty),
                null: false,
            };
            is_misfit(ty, value)
        }
    }
}

/// Adds a number as the leaf has it.
fn add_stored(values: &mut Vec<i128>, leaf: Option<Type>, v: i128) -> Result<(), AllocError>
    ensures { OnOk result (values.new.items ≡ values.old.items ++ is.stored_at leaf v) }
{
    match leaf {
        None => Ok(()),
        Some(ty) => add_stored_in(values, ty, v),
    }
}

fn add_stored_in(values: &mut Vec<i128>, ty: Type, v: i128) -> Result<(), AllocError>
    ensures { OnOk result (values.new.items ≡ values.old.items ++ is.stored_in ty v) }
{
    match ty {
        Type::Int(t) => {
            values.push(convert(v, t))?;
            Ok(())
        }
        Type::Bad | Type::Void | Type::Struct(_) | Type::Array { .. } | Type::Pointer { .. } => {
            Ok(())
        }
    }
}
