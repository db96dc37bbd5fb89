// Statements (C99 6.8).
ghost use Rattle.std.specs.Prelude.{◌≡◌, map, option_map};
ghost use Rattle.pt_tree.specs.ExpressionTree.{view_expr};
ghost use Rattle.pt_tree.specs.StatementTree.{switch as switch_tree, view_stmt, view_section, view_for_init, stmt_trees, section_trees};
ghost use Rattle.check_statements.specs.Gives.{GivesBegun, GivesChecked, GivesCheckedAll, GivesCheckedSection, GivesCheckedSections, GivesMaybe, progress_of, state_of};
ghost use Rattle.check_statements.specs.Seen.{seen_of};
ghost use Rattle.check_statements.specs.Labels.{none_seen};
ghost use Rattle.check_statements.specs.Statements as is;

use crate::context::Context;
use crate::declarations::declared;
use crate::outermost::{evaluated, fitted, maybe_evaluated, maybe_tested, tested};
use crate::seen::SeenLabels;
use crate::switches::{Kind, control, labelled};
use crate::walk::Walk;
use check_declarations::{FaultKind, note_if};
use check_expressions::Names;
use pt_base::Span;
use pt_tree::{Expr, ForInit, Section, Stmt};
use std::alloc::{AllocError, Global};
use type_rules::Type;
use typed_tree::{ExprId, TypedBody, TypedForInit, TypedSection};

/// The items of a function's outermost block, for a result of this type. They stand in the innermost
/// scope that is open, that of the parameters.
pub fn check_block(
    alloc: Global,
    names: &mut Names,
    walk: &mut Walk,
    ty: Type,
    items: &[Stmt],
) -> Result<Vec<TypedBody>, AllocError>
    ensures { GivesCheckedAll result (progress_of names.old walk.old) (progress_of names.new walk.new) (is.checked_block ty (state_of names.old walk.old) (map view_stmt items.now)) }
{
    let context = Context {
        result: ty,
        in_loop: false,
        in_switch: false,
    };
    statements(alloc, items, names, walk, context)
}

/// A statement. Its outermost expressions go to the end of `exprs`, its faults to the end of `faults`.
#[cycle(statements)]
#[tactic(auto, using(crate::proofs::StatementLemmas::rows))]
fn statement(
    alloc: Global,
    s: &Stmt,
    names: &mut Names,
    walk: &mut Walk,
    context: Context,
) -> Result<TypedBody, AllocError>
    ensures { GivesChecked result (progress_of names.old walk.old) (progress_of names.new walk.new) (is.checked context (state_of names.old walk.old) (view_stmt s.now)) }
{
    match s {
        Stmt::Declare(d) => {
            let declaration = declared(alloc, names, walk, d)?;
            Ok(TypedBody::Declare(declaration))
        }
        Stmt::Block(block) => {
            let span = block.span;
            let items = inner_block(alloc, &block.items, names, walk, context)?;
            Ok(TypedBody::block(span, items))
        }
        Stmt::Empty(span) => Ok(TypedBody::Empty(*span)),
        Stmt::Expr(span, e) => {
            let id = evaluated(alloc, names, walk, e)?;
            Ok(TypedBody::Evaluate(*span, id))
        }
        Stmt::If(span, test, yes, no) => {
            let id = tested(alloc, names, walk, test)?;
            let yes = statement(alloc, yes, names, walk, context)?;
            match no {
                None => TypedBody::when(alloc, *span, id, yes),
                Some(no) => {
                    let no = statement(alloc, no, names, walk, context)?;
                    TypedBody::choice(alloc, *span, id, yes, no)
                }
            }
        }
        Stmt::While(span, test, body) => {
            let id = tested(alloc, names, walk, test)?;
            let inner = looping(context);
            let body = statement(alloc, body, names, walk, inner)?;
            TypedBody::while_true(alloc, *span, id, body)
        }
        Stmt::Do(span, body, test) => {
            let inner = looping(context);
            let body = statement(alloc, body, names, walk, inner)?;
            let id = tested(alloc, names, walk, test)?;
            TypedBody::do_while(alloc, *span, body, id)
        }
        Stmt::For(span, init, test, step, body) => {
            names.open_scope(alloc)?;
            let init = for_begun(alloc, names, walk, init)?;
            let test = maybe_tested(alloc, names, walk, test)?;
            let step = maybe_evaluated(alloc, names, walk, step)?;
            let inner = looping(context);
            let body = statement(alloc, body, names, walk, inner)?;
            names.close_scope();
            TypedBody::for_each(alloc, *span, init, test, step, body)
        }
        Stmt::Return(span, value) => {
            let id = given_back(alloc, names, walk, context.result, *span, value)?;
            Ok(TypedBody::Return(*span, id))
        }
        Stmt::Break(span) => {
            let wrong = !(context.in_loop || context.in_switch);
            note_if(
                &mut walk.findings.faults,
                wrong,
                FaultKind::OutOfProfile,
                *span,
            )?;
            Ok(TypedBody::Break(*span))
        }
        Stmt::Continue(span) => {
            note_if(
                &mut walk.findings.faults,
                !context.in_loop,
                FaultKind::OutOfProfile,
                *span,
            )?;
            Ok(TypedBody::Continue(*span))
        }
        Stmt::Switch(span, on, parts) => { switch(alloc, parts, names, walk, context, *span, on) }
    }
}

/// The statements of a block, in a scope of their own.
#[cycle(statements)]
fn inner_block(
    alloc: Global,
    items: &[Stmt],
    names: &mut Names,
    walk: &mut Walk,
    context: Context,
) -> Result<Vec<TypedBody>, AllocError>
    ensures { GivesCheckedAll result (progress_of names.old walk.old) (progress_of names.new walk.new) (is.checked_inner context (state_of names.old walk.old) (stmt_trees (map view_stmt items.now))) }
{
    names.open_scope(alloc)?;
    let bodies = statements(alloc, items, names, walk, context)?;
    names.close_scope();
    Ok(bodies)
}

/// Statements one after the other.
#[cycle(statements)]
fn statements(
    alloc: Global,
    items: &[Stmt],
    names: &mut Names,
    walk: &mut Walk,
    context: Context,
) -> Result<Vec<TypedBody>, AllocError>
    ensures { GivesCheckedAll result (progress_of names.old walk.old) (progress_of names.new walk.new) (is.checked_all context (state_of names.old walk.old) (stmt_trees (map view_stmt items.now))) }
{
    let mut bodies = Vec::with_capacity(alloc, items.len())?;
    for s in items {
        bodies.push(statement(alloc, s, names, walk, context)?)?;
    }
    Ok(bodies)
}

/// A switch.
#[cycle(statements)]
fn switch(
    alloc: Global,
    parts: &[Section],
    names: &mut Names,
    walk: &mut Walk,
    context: Context,
    span: Span,
    on: &Expr,
) -> Result<TypedBody, AllocError>
    ensures { GivesChecked result (progress_of names.old walk.old) (progress_of names.new walk.new) (is.checked context (state_of names.old walk.old) (switch_tree span (view_expr on.now) (section_trees (map view_section parts.now)))) }
{
    let chosen = control(alloc, names, walk, on)?;
    let inner = switching(context);
    let kind = chosen.kind;
    let typed = sections(alloc, parts, names, walk, inner, kind)?;
    Ok(TypedBody::switch(span, chosen.id, kind.ty, typed))
}

/// The sections of a switch.
#[cycle(statements)]
fn sections(
    alloc: Global,
    parts: &[Section],
    names: &mut Names,
    walk: &mut Walk,
    context: Context,
    kind: Kind,
) -> Result<Vec<TypedSection>, AllocError>
    ensures { GivesCheckedSections result (progress_of names.old walk.old) (progress_of names.new walk.new) (is.checked_sections context kind none_seen (state_of names.old walk.old) (section_trees (map view_section parts.now))) }
{
    let mut seen = SeenLabels::none(alloc);
    let mut typed = Vec::with_capacity(alloc, parts.len())?;
    for part in parts {
        typed.push(section(alloc, part, names, walk, context, kind, &mut seen)?)?;
    }
    Ok(typed)
}

/// A section of a switch, behind the labels that were seen.
#[cycle(statements)]
fn section(
    alloc: Global,
    part: &Section,
    names: &mut Names,
    walk: &mut Walk,
    context: Context,
    kind: Kind,
    seen: &mut SeenLabels,
) -> Result<TypedSection, AllocError>
    ensures { GivesCheckedSection result (progress_of names.old walk.old) (progress_of names.new walk.new) (seen_of seen.new) (is.checked_section context kind (seen_of seen.old) (state_of names.old walk.old) (view_section part.now)) }
{
    let label = labelled(alloc, names, &mut walk.findings, kind, seen, &part.label)?;
    let statements = statements(alloc, &part.statements, names, walk, context)?;
    Ok(TypedSection {
        span: part.span,
        label,
        statements,
    })
}

/// What stands first in the parentheses of a `for`.
fn for_begun(
    alloc: Global,
    names: &mut Names,
    walk: &mut Walk,
    init: &ForInit,
) -> Result<TypedForInit, AllocError>
    ensures { GivesBegun result (progress_of names.old walk.old) (progress_of names.new walk.new) (is.for_begun (state_of names.old walk.old) (view_for_init init.now)) }
{
    match init {
        ForInit::Declare(d) => {
            let declaration = declared(alloc, names, walk, d)?;
            Ok(TypedForInit::Declare(declaration))
        }
        ForInit::Nothing => Ok(TypedForInit::Nothing),
        ForInit::Expr(e) => {
            let id = evaluated(alloc, names, walk, e)?;
            Ok(TypedForInit::Evaluate(id))
        }
    }
}

/// What a function of this result type gives back, at a `return` with this span.
fn given_back(
    alloc: Global,
    names: &Names,
    walk: &mut Walk,
    ty: Type,
    span: Span,
    value: &Option<Expr>,
) -> Result<Option<ExprId>, AllocError>
    ensures { GivesMaybe result (progress_of names.now walk.old) (progress_of names.now walk.new) (is.given_back (state_of names.now walk.old) ty span (option_map view_expr value.now)) }
{
    match value {
        None => {
            note_if(
                &mut walk.findings.faults,
                wants_value(ty),
                FaultKind::WrongType,
                span,
            )?;
            Ok(None)
        }
        Some(e) => Ok(Some(fitted(alloc, names, walk, ty, e)?)),
    }
}

/// Whether a function of this result type gives a value back. A result of type Bad asks for nothing.
fn wants_value(ty: Type) -> bool
    ensures { result ≡ is.wants_value ty }
{
    match ty {
        Type::Bad | Type::Void => false,
        Type::Int(_) | Type::Struct(_) | Type::Array { .. } | Type::Pointer { .. } => true,
    }
}

/// In the body of a loop.
fn looping(context: Context) -> Context
    ensures { result ≡ is.looping context }
{
    Context {
        in_loop: true,
        ..context
    }
}

/// In a switch.
fn switching(context: Context) -> Context
    ensures { result ≡ is.switching context }
{
    Context {
        in_switch: true,
        ..context
    }
}
