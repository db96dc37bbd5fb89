// Going over a body for its outermost expressions.
ghost use Rattle.std.specs.Prelude.{◌≡◌, ◌++◌, ◌∷◌, [], OnOk, map};
ghost use Rattle.typed_tree.specs.StatementTree.{view_body, view_section, body_trees, section_trees};
ghost use Rattle.typed_tree.specs.Parts.{part_of, optional_part, init_parts, declaration_parts, for_init_parts, parts_of, all_parts, section_parts};

use crate::ids::ExprId;
use crate::part::{Part, Role};
use crate::statement::{TypedBody, TypedDeclarator, TypedForInit, TypedInit, TypedSection};
use pt_base::VarId;
use std::alloc::AllocError;

// a part at the end
fn add(role: Role, expr: ExprId, parts: &mut Vec<Part>) -> Result<(), AllocError>
    ensures { OnOk result (parts.new.items ≡ parts.old.items ++ part_of role expr ∷ []) }
{
    parts.push(Part { role, expr })?;
    Ok(())
}

// the part of an expression that may be left out
fn add_optional(role: Role, expr: Option<ExprId>, parts: &mut Vec<Part>) -> Result<(), AllocError>
    ensures { OnOk result (parts.new.items ≡ parts.old.items ++ optional_part role expr) }
{
    match expr {
        Some(expr) => add(role, expr, parts),
        None => Ok(()),
    }
}

// the parts of a brace list's items
fn add_items(var: VarId, items: &[ExprId], parts: &mut Vec<Part>) -> Result<(), AllocError>
    ensures { OnOk result (parts.new.items ≡ parts.old.items ++ map (part_of (Role.Init var)) items.now) }
{
    for expr in items {
        add(Role::Init(var), *expr, parts)?;
    }
    Ok(())
}

// the parts of an initialiser
fn add_init(var: VarId, init: &TypedInit, parts: &mut Vec<Part>) -> Result<(), AllocError>
    ensures { OnOk result (parts.new.items ≡ parts.old.items ++ init_parts var init.now) }
{
    match init {
        TypedInit::Nothing => Ok(()),
        TypedInit::Value(expr) => add(Role::Init(var), *expr, parts),
        TypedInit::Items(_, items) => add_items(var, items.as_slice(), parts),
    }
}

// the parts of declared variables
fn add_declaration(declarators: &[TypedDeclarator], parts: &mut Vec<Part>) -> Result<(), AllocError>
    ensures { OnOk result (parts.new.items ≡ parts.old.items ++ declaration_parts declarators.now) }
{
    for declarator in declarators {
        add_init(declarator.var, &declarator.init, parts)?;
    }
    Ok(())
}

// the parts of what stands first in a `for`
fn add_for_init(init: &TypedForInit, parts: &mut Vec<Part>) -> Result<(), AllocError>
    ensures { OnOk result (parts.new.items ≡ parts.old.items ++ for_init_parts init.now) }
{
    match init {
        TypedForInit::Nothing => Ok(()),
        TypedForInit::Declare(d) => add_declaration(d.declarators.as_slice(), parts),
        TypedForInit::Evaluate(expr) => add(Role::Value, *expr, parts),
    }
}

/// Appends the parts of a statement, in text order.
#[cycle(parts)]
pub(crate) fn add_parts(body: &TypedBody, parts: &mut Vec<Part>) -> Result<(), AllocError>
    ensures { OnOk result (parts.new.items ≡ parts.old.items ++ parts_of (view_body body.now)) }
{
    match body {
        TypedBody::Block(_, statements) => add_all(statements, parts),
        TypedBody::Empty(_) | TypedBody::Break(_) | TypedBody::Continue(_) => Ok(()),
        TypedBody::Evaluate(_, expr) => add(Role::Value, *expr, parts),
        TypedBody::Declare(d) => add_declaration(d.declarators.as_slice(), parts),
        TypedBody::If(_, test, yes, no) => {
            add(Role::Condition, *test, parts)?;
            add_parts(yes, parts)?;
            match no {
                Some(no) => add_parts(no, parts),
                None => Ok(()),
            }
        }
        TypedBody::While(_, test, inner) => {
            add(Role::Condition, *test, parts)?;
            add_parts(inner, parts)
        }
        TypedBody::Do(_, inner, test) => {
            add_parts(inner, parts)?;
            add(Role::Condition, *test, parts)
        }
        TypedBody::For(_, init, test, step, inner) => {
            add_for_init(init, parts)?;
            add_optional(Role::Condition, *test, parts)?;
            add_optional(Role::Value, *step, parts)?;
            add_parts(inner, parts)
        }
        TypedBody::Return(_, value) => add_optional(Role::Returned, *value, parts),
        TypedBody::Switch(_, on, _, sections) => add_switch(*on, sections, parts),
    }
}

// the parts of statements that follow each other
#[cycle(parts)]
fn add_all(statements: &[TypedBody], parts: &mut Vec<Part>) -> Result<(), AllocError>
    ensures { OnOk result (parts.new.items ≡ parts.old.items ++ all_parts (body_trees (map view_body statements.now))) }
{
    for statement in statements {
        add_parts(statement, parts)?;
    }
    Ok(())
}

// what a switch chooses by, and the parts of its sections
#[cycle(parts)]
fn add_switch(
    on: ExprId,
    sections: &[TypedSection],
    parts: &mut Vec<Part>,
) -> Result<(), AllocError>
    ensures { OnOk result (parts.new.items ≡ parts.old.items ++ part_of Role.Condition on ∷ section_parts (section_trees (map view_section sections.now))) }
{
    add(Role::Condition, on, parts)?;
    for section in sections {
        add_all(&section.statements, parts)?;
    }
    Ok(())
}
