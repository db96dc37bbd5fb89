// The lowering of statements.
ghost use Rattle.std.specs.Prelude.{◌≡◌, ◌+◌, map, None, Some};
ghost use Rattle.typed_tree.specs.StatementTree as tree;
ghost use Rattle.lowering.specs.Names.{code_in};
ghost use Rattle.lowering.specs.Onwards.{view_onward};
ghost use Rattle.lowering.specs.Output.{output_of, Doing, Collecting};
ghost use Rattle.lowering.specs.StatementParts.{choice_in, for_from, section_in};
ghost use Rattle.lowering.specs.Statements as is;

use crate::declarations::{begin_for, declare};
use crate::flow::give_back;
use crate::loops::{step_apart, test, test_apart};
use crate::outermost::{effects_of, type_of_numbered, value_of};
use lowering::flow::{Onward, go_on, go_on_behind, number};
use lowering::loops::{on_the_way_back, tell_first};
use lowering::names::Names;
use lowering::operators::as_int;
use lowering::output::Lowering;
use lowering::switches::{Choosing, choose_sections, otherwise, section_of};
use lowering::temporary::Temporary;
use pt_base::{IntType, Span};
use pt_core::Stmt;
use std::alloc::{AllocError, Global};
use typed_tree::{ExprId, TypedBody, TypedForInit, TypedSection, VarTy};

/// A statement, in which `continue` does this.
#[cycle(statements)]
pub(crate) fn statement(
    alloc: Global,
    names: &Names<'_>,
    body: &TypedBody,
    mode: Onward,
    lowering: &mut Lowering,
) -> Result<(), AllocError>
    ensures { Doing result (output_of lowering.old) (is.statement_in (code_in names.now) (tree.view_body body.now) (view_onward mode)) (output_of lowering.new) }
{
    match body {
        TypedBody::Block(_, all) => statements(alloc, names, all, mode, lowering),
        TypedBody::Empty(_) => Ok(()),
        TypedBody::Evaluate(_, e) => effects_of(alloc, names, *e, lowering),
        TypedBody::Declare(d) => declare(alloc, names, d.declarators.as_slice(), lowering),
        TypedBody::If(_, e, yes, no) => match no {
            Some(no) => choose(alloc, names, *e, yes, no, mode, lowering),
            None => choose_alone(alloc, names, *e, yes, mode, lowering),
        },
        TypedBody::While(span, e, body) => {
            loop_while(alloc, names, *span, Some(*e), body, lowering)
        }
        TypedBody::Do(span, body, e) => do_while(alloc, names, *span, body, *e, lowering),
        TypedBody::For(span, init, test, step, body) => match step {
            Some(step) => { for_step(alloc, names, *span, init, *test, *step, body, lowering) }
            None => for_test(alloc, names, *span, init, *test, body, lowering),
        },
        TypedBody::Return(_, e) => give_back(alloc, names, *e, lowering),
        TypedBody::Break(_) => lowering.add(Stmt::Break),
        TypedBody::Continue(_) => go_on(alloc, mode, lowering),
        TypedBody::Switch(span, e, ty, all) => {
            switch(alloc, names, *span, *e, *ty, all, mode, lowering)
        }
    }
}

// an `if` with an `else`
#[cycle(statements)]
fn choose(
    alloc: Global,
    names: &Names<'_>,
    e: ExprId,
    yes: &TypedBody,
    no: &TypedBody,
    mode: Onward,
    lowering: &mut Lowering,
) -> Result<(), AllocError>
    ensures { Doing result (output_of lowering.old) (choice_in (code_in names.now) e (tree.view_body yes.now) (tree.otherwise (tree.view_body no.now)) (view_onward mode)) (output_of lowering.new) }
{
    let cond = value_of(alloc, names, e, lowering)?;
    let first = statement_apart(alloc, names, yes, mode, lowering)?;
    let second = statement_apart(alloc, names, no, mode, lowering)?;
    lowering.add(Stmt::choose(cond, first, second))
}

// an `if` without one
#[cycle(statements)]
fn choose_alone(
    alloc: Global,
    names: &Names<'_>,
    e: ExprId,
    yes: &TypedBody,
    mode: Onward,
    lowering: &mut Lowering,
) -> Result<(), AllocError>
    ensures { Doing result (output_of lowering.old) (choice_in (code_in names.now) e (tree.view_body yes.now) tree.no_else (view_onward mode)) (output_of lowering.new) }
{
    let cond = value_of(alloc, names, e, lowering)?;
    let first = statement_apart(alloc, names, yes, mode, lowering)?;
    lowering.add(Stmt::choose(cond, first, Vec::new(alloc)))
}

// statements in a list of their own
#[cycle(statements)]
fn statement_apart(
    alloc: Global,
    names: &Names<'_>,
    body: &TypedBody,
    mode: Onward,
    lowering: &mut Lowering,
) -> Result<Vec<Stmt>, AllocError>
    ensures { Collecting result (output_of lowering.old) (is.statement_in (code_in names.now) (tree.view_body body.now) (view_onward mode)) (output_of lowering.new) }
{
    let outer = lowering.begin(alloc);
    statement(alloc, names, body, mode, lowering)?;
    Ok(lowering.end(outer))
}

// the statements of a block
#[cycle(statements)]
fn statements(
    alloc: Global,
    names: &Names<'_>,
    all: &[TypedBody],
    mode: Onward,
    lowering: &mut Lowering,
) -> Result<(), AllocError>
    ensures { Doing result (output_of lowering.old) (is.all_in (code_in names.now) (tree.body_trees (map tree.view_body all.now)) (view_onward mode)) (output_of lowering.new) }
{
    for body in all {
        statement(alloc, names, body, mode, lowering)?;
    }
    Ok(())
}

// a `do`
#[cycle(statements)]
fn do_while(
    alloc: Global,
    names: &Names<'_>,
    span: Span,
    body: &TypedBody,
    e: ExprId,
    lowering: &mut Lowering,
) -> Result<(), AllocError>
    ensures { Doing result (output_of lowering.old) (is.statement_in (code_in names.now) (tree.do_while span (tree.view_body body.now) e) is.nowhere) (output_of lowering.new) }
{
    let first = tell_first(alloc, lowering)?;
    let outer = lowering.begin(alloc);
    let back = test_apart(alloc, names, e, lowering)?;
    on_the_way_back(alloc, first, back, lowering)?;
    statement(alloc, names, body, Onward::ToHead, lowering)?;
    let inner = lowering.end(outer);
    lowering.add(Stmt::repeat(inner, span))
}

// a `for` with a step
#[cycle(statements)]
fn for_step(
    alloc: Global,
    names: &Names<'_>,
    span: Span,
    init: &TypedForInit,
    e: Option<ExprId>,
    step: ExprId,
    body: &TypedBody,
    lowering: &mut Lowering,
) -> Result<(), AllocError>
    ensures { Doing result (output_of lowering.old) (is.statement_in (code_in names.now) (tree.for_each span init.now e (Some step) (tree.view_body body.now)) is.nowhere) (output_of lowering.new) }
{
    begin_for(alloc, names, init, lowering)?;
    loop_step(alloc, names, span, e, step, body, lowering)
}

// the same behind what stands first in it
#[cycle(statements)]
fn loop_step(
    alloc: Global,
    names: &Names<'_>,
    span: Span,
    e: Option<ExprId>,
    step: ExprId,
    body: &TypedBody,
    lowering: &mut Lowering,
) -> Result<(), AllocError>
    ensures { Doing result (output_of lowering.old) (for_from (code_in names.now) span e (Some step) (tree.view_body body.now)) (output_of lowering.new) }
{
    let first = tell_first(alloc, lowering)?;
    let outer = lowering.begin(alloc);
    let back = step_apart(alloc, names, step, lowering)?;
    on_the_way_back(alloc, first, back, lowering)?;
    test(alloc, names, e, lowering)?;
    statement(alloc, names, body, Onward::ToHead, lowering)?;
    let inner = lowering.end(outer);
    lowering.add(Stmt::repeat(inner, span))
}

// a `for` without a step
#[cycle(statements)]
fn for_test(
    alloc: Global,
    names: &Names<'_>,
    span: Span,
    init: &TypedForInit,
    e: Option<ExprId>,
    body: &TypedBody,
    lowering: &mut Lowering,
) -> Result<(), AllocError>
    ensures { Doing result (output_of lowering.old) (is.statement_in (code_in names.now) (tree.for_each span init.now e None (tree.view_body body.now)) is.nowhere) (output_of lowering.new) }
{
    begin_for(alloc, names, init, lowering)?;
    loop_while(alloc, names, span, e, body, lowering)
}

// a `while`, and a `for` without a step behind what stands first in it
#[cycle(statements)]
fn loop_while(
    alloc: Global,
    names: &Names<'_>,
    span: Span,
    e: Option<ExprId>,
    body: &TypedBody,
    lowering: &mut Lowering,
) -> Result<(), AllocError>
    ensures { Doing result (output_of lowering.old) (for_from (code_in names.now) span e None (tree.view_body body.now)) (output_of lowering.new) }
{
    let outer = lowering.begin(alloc);
    test(alloc, names, e, lowering)?;
    statement(alloc, names, body, Onward::ToHead, lowering)?;
    let inner = lowering.end(outer);
    lowering.add(Stmt::repeat(inner, span))
}

// a switch: the value, the chosen section and the flag of `continue` are held in temporaries
#[cycle(statements)]
fn switch(
    alloc: Global,
    names: &Names<'_>,
    span: Span,
    e: ExprId,
    ty: IntType,
    all: &[TypedSection],
    mode: Onward,
    lowering: &mut Lowering,
) -> Result<(), AllocError>
    ensures { Doing result (output_of lowering.old) (is.statement_in (code_in names.now) (tree.switch span e ty (tree.section_trees (map tree.view_section all.now))) (view_onward mode)) (output_of lowering.new) }
{
    let from = type_of_numbered(names, e);
    let v = value_of(alloc, names, e, lowering)?;
    let promoted = as_int(alloc, from, ty, v)?;
    let counting = Temporary::counting(VarTy::Int(IntType::Int));
    let value = lowering.hold(alloc, Temporary::counting(VarTy::Int(ty)), promoted)?;
    let chosen = lowering.hold(alloc, counting, number(otherwise(all)))?;
    let choosing = Choosing {
        span,
        ty,
        value,
        chosen,
    };
    choose_sections(alloc, choosing, all, lowering)?;
    let flag = lowering.hold(alloc, counting, number(0))?;
    let outer = lowering.begin(alloc);
    sections(alloc, names, choosing, all, mode.inside(flag), lowering)?;
    lowering.add(Stmt::Break)?;
    let inner = lowering.end(outer);
    lowering.add(Stmt::repeat(inner, span))?;
    go_on_behind(alloc, mode, flag, lowering)
}

// the sections of a switch
#[cycle(statements)]
fn sections(
    alloc: Global,
    names: &Names<'_>,
    choosing: Choosing,
    all: &[TypedSection],
    mode: Onward,
    lowering: &mut Lowering,
) -> Result<(), AllocError>
    requires { choosing.chosen.0 ≡ choosing.value.0 + 1 }
    ensures { Doing result (output_of lowering.old) (is.sections_in (code_in names.now) choosing.span (tree.section_trees (map tree.view_section all.now)) (view_onward mode) choosing.value.0 0) (output_of lowering.new) }
{
    for (m, section) in all.iter().enumerate() {
        section_at(alloc, names, choosing, m, section, mode, lowering)?;
    }
    Ok(())
}

// a section of a switch, with this number
#[cycle(statements)]
fn section_at(
    alloc: Global,
    names: &Names<'_>,
    choosing: Choosing,
    m: usize,
    section: &TypedSection,
    mode: Onward,
    lowering: &mut Lowering,
) -> Result<(), AllocError>
    requires { choosing.chosen.0 ≡ choosing.value.0 + 1 }
    ensures { Doing result (output_of lowering.old) (section_in (code_in names.now) choosing.span (tree.view_section section.now) (view_onward mode) choosing.value.0 m) (output_of lowering.new) }
{
    let outer = lowering.begin(alloc);
    statements(alloc, names, &section.statements, mode, lowering)?;
    let inner = lowering.end(outer);
    section_of(alloc, choosing, m, inner, lowering)
}
