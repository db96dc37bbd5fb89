// The globals that the slave owns.
ghost use Rattle.std.specs.Prelude.{◌≡◌, IfOk, length};
ghost use Rattle.typed_tree.specs.ExpressionTree.{view_expr, view_form, view_place, view_root};
ghost use Rattle.typed_tree.specs.TypedView.{view_typed};
ghost use Rattle.reach.specs.Contexts as is;
ghost use Rattle.reach.specs.Owned as owned;
ghost use Rattle.reach.specs.Tables.{items_of, set_all};
ghost use Rattle.usages.specs.Lent.{AreUsages};

use crate::tables::set_true;
use pt_base::{FnId, GlobalId};
use std::alloc::{AllocError, Global};
use typed_tree::{Form, Place, Root, Typed, TypedExpr};
use usages::Usages;

// the global in which a place lies, if it is one
fn place_global(place: &Place) -> Option<GlobalId>
    ensures { items_of result ≡ is.place_globals (view_place place.now) }
{
    match &place.root {
        Root::Global(global) => Some(*global),
        Root::Local(_) | Root::Deref { .. } | Root::Assigned(_) => None,
    }
}

// the global that an expression names itself
fn named_global(e: &TypedExpr) -> Option<GlobalId>
    ensures { items_of result ≡ is.expr_globals (view_expr e.now) }
{
    match &e.form {
        Form::Read(place) => place_global(place),
        Form::Decay(place) => place_global(place),
        Form::Address(place) => place_global(place),
        Form::Assign(place, _) => place_global(place),
        Form::Compound { place, .. } => place_global(place),
        Form::Step { place, .. } => place_global(place),
        Form::Constant(_)
        | Form::Null
        | Form::Unary(_, _)
        | Form::Convert(_)
        | Form::Discard(_)
        | Form::Chain(_, _)
        | Form::Logical(_, _, _)
        | Form::Choice(_, _, _)
        | Form::Call(_, _) => None,
    }
}

// adds the global that an expression names itself to a set
fn add_named(e: &TypedExpr, table: &mut [bool])
    ensures { table.new ≡ set_all table.old (owned.expr_numbers (view_expr e.now)) }
{
    if let Some(global) = named_global(e) {
        set_true(table, global.0 as usize);
    }
}

// adds the globals that the body of a function names to a set
fn add_globals(t: &Typed, usages: &Usages<'_>, f: FnId, table: &mut [bool])
    requires used { AreUsages (view_typed t.now) usages.now }
    ensures { table.new ≡ set_all table.old (owned.global_numbers (view_typed t.now) f) }
{
    let list = usages.of(t, f);
    for usage in list {
        add_named(usage.value, table);
    }
}

/// For each global, whether one of these functions names it.
pub fn named_by(
    alloc: Global,
    t: &Typed,
    usages: &Usages<'_>,
    functions: &[FnId],
) -> Result<Vec<bool>, AllocError>
    requires used { AreUsages (view_typed t.now) usages.now }
    ensures { IfOk result (λ v. v.items ≡ owned.owned_table (view_typed t.now) functions.now) }
{
    let mut table = vec![in alloc; false; t.globals.as_slice().len()]?;
    for f in functions {
        add_globals(t, usages, *f, &mut table);
    }
    Ok(table)
}
