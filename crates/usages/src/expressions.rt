// The expressions of a body in the order of their evaluation, each with what its value is used for.
ghost use Rattle.std.specs.Prelude.{◌≡◌, ◌++◌, List, OnOk, drop, map};
ghost use Rattle.typed_tree.specs.ExpressionTree.{view_expr, view_form, view_link, view_operand, view_place, view_root, view_step, expr_trees, link_trees, operand_trees, step_trees};
ghost use Rattle.typed_tree.specs.WellFormedExpression.{ty_of};
ghost use Rattle.usages.specs.UsageView.{view_usage};
ghost use Rattle.usages.specs.Usages as is;

use crate::conversions::keeps_value;
use crate::numbers::next_index;
use crate::usage::{How, Usage};
use pt_base::FnId;
use std::alloc::AllocError;
use typed_tree::{Form, Place, PlaceStep, Root, TypedExpr, TypedLink, TypedOperand, VarTy};

// what a conversion does with its operand
fn converted(from: Option<VarTy>, to: Option<VarTy>) -> How
    ensures { result ≡ is.converted from to }
{
    if keeps_value(from, to) {
        How::Kept
    } else {
        How::Operated
    }
}

/// Appends all that is evaluated for an expression, itself last.
#[cycle(usages)]
pub(crate) fn add_usages<'a>(
    how: How,
    e: &'a TypedExpr,
    all: &mut Vec<Usage<'a>>,
) -> Result<(), AllocError>
    ensures { OnOk result (map view_usage all.new.items ≡ map view_usage all.old.items ++ is.evaluated how (view_expr e.now)) }
{
    add_parts(e, all)?;
    all.push(Usage { how, value: e })?;
    Ok(())
}

// appends what is evaluated for the parts of an expression
#[cycle(usages)]
fn add_parts<'a>(e: &'a TypedExpr, all: &mut Vec<Usage<'a>>) -> Result<(), AllocError>
    ensures { OnOk result (map view_usage all.new.items ≡ map view_usage all.old.items ++ is.form_usages e.now.ty (view_form e.now.form)) }
{
    match &e.form {
        Form::Constant(_) | Form::Null => Ok(()),
        Form::Read(place) => add_place(place, all),
        Form::Decay(place) => add_place(place, all),
        Form::Address(place) => add_place(place, all),
        Form::Unary(_, a) => add_usages(How::Operated, a, all),
        Form::Convert(a) => add_usages(converted(a.ty, e.ty), a, all),
        Form::Discard(a) => add_usages(How::Kept, a, all),
        Form::Chain(a, links) => {
            add_usages(How::Operated, a, all)?;
            add_links(links, all)
        }
        Form::Logical(_, a, operands) => {
            add_usages(How::Operated, a, all)?;
            add_operands(operands, all)
        }
        Form::Choice(test, yes, no) => {
            add_usages(How::Operated, test, all)?;
            add_usages(How::Kept, yes, all)?;
            add_usages(How::Kept, no, all)
        }
        Form::Assign(place, a) => {
            add_place(place, all)?;
            add_usages(How::Kept, a, all)
        }
        Form::Compound { place, operand, .. } => {
            add_place(place, all)?;
            add_usages(How::Operated, operand, all)
        }
        Form::Step { place, .. } => add_place(place, all),
        Form::Call(callee, arguments) => add_arguments(*callee, arguments, all),
    }
}

// appends what is evaluated for the arguments of a call
#[cycle(usages)]
fn add_arguments<'a>(
    callee: FnId,
    arguments: &'a [TypedExpr],
    all: &mut Vec<Usage<'a>>,
) -> Result<(), AllocError>
    ensures { OnOk result (map view_usage all.new.items ≡ map view_usage all.old.items ++ is.argument_usages callee 0 (expr_trees (map view_expr arguments.now))) }
{
    let mut number = 0;
    for argument in arguments {
        add_usages(How::Passed(callee, number), argument, all)?;
        number = next_index(number)?;
    }
    Ok(())
}

// appends what is evaluated for the links of a chain
#[cycle(usages)]
fn add_links<'a>(links: &'a [TypedLink], all: &mut Vec<Usage<'a>>) -> Result<(), AllocError>
    ensures { OnOk result (map view_usage all.new.items ≡ map view_usage all.old.items ++ is.link_usages (link_trees (map view_link links.now))) }
{
    for link in links {
        add_usages(How::Operated, &link.operand, all)?;
    }
    Ok(())
}

// appends what is evaluated for the operands of `&&` or `||` behind the first
#[cycle(usages)]
fn add_operands<'a>(
    operands: &'a [TypedOperand],
    all: &mut Vec<Usage<'a>>,
) -> Result<(), AllocError>
    ensures { OnOk result (map view_usage all.new.items ≡ map view_usage all.old.items ++ is.operand_usages (operand_trees (map view_operand operands.now))) }
{
    for operand in operands {
        add_usages(How::Operated, &operand.operand, all)?;
    }
    Ok(())
}

// appends what is evaluated for a place
#[cycle(usages)]
fn add_place<'a>(place: &'a Place, all: &mut Vec<Usage<'a>>) -> Result<(), AllocError>
    ensures { OnOk result (map view_usage all.new.items ≡ map view_usage all.old.items ++ is.place_usages (view_place place.now)) }
{
    add_root(&place.root, all)?;
    add_steps(&place.steps, all)
}

// appends what is evaluated for where a place begins
#[cycle(usages)]
fn add_root<'a>(root: &'a Root, all: &mut Vec<Usage<'a>>) -> Result<(), AllocError>
    ensures { OnOk result (map view_usage all.new.items ≡ map view_usage all.old.items ++ is.root_usages (view_root root.now)) }
{
    match root {
        Root::Local(_) | Root::Global(_) => Ok(()),
        Root::Deref { pointer, .. } => add_usages(How::Kept, pointer, all),
        Root::Assigned(assignment) => add_usages(How::Kept, assignment, all),
    }
}

// appends what is evaluated for the steps of a place
#[cycle(usages)]
fn add_steps<'a>(steps: &'a [PlaceStep], all: &mut Vec<Usage<'a>>) -> Result<(), AllocError>
    ensures { OnOk result (map view_usage all.new.items ≡ map view_usage all.old.items ++ is.step_usages (step_trees (map view_step steps.now))) }
{
    for step in steps {
        add_index(step, all)?;
    }
    Ok(())
}

// appends what is evaluated for one step
#[cycle(usages)]
fn add_index<'a>(step: &'a PlaceStep, all: &mut Vec<Usage<'a>>) -> Result<(), AllocError>
    ensures { OnOk result (map view_usage all.new.items ≡ map view_usage all.old.items ++ is.index_usages (view_step step.now)) }
{
    match step {
        PlaceStep::Field(_) => Ok(()),
        PlaceStep::Item { index, .. } => add_usages(How::Operated, index, all),
    }
}
