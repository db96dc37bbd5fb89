// Which expressions need no statement before their value.
ghost use Rattle.std.specs.Prelude.{◌≡◌, ℕ, ◌&&◌, ◌||◌, drop, map, not, nat_lt};
ghost use Rattle.typed_tree.specs.ExpressionTree as t;
ghost use Rattle.lowering.specs.Purity as is;
ghost use Rattle.lowering.specs.ExpressionParts.{is_pure_step};

use typed_tree::{Form, LinkStep, Place, PlaceStep, Root, TypedExpr, TypedLink};

/// Whether a step's left operand is evaluated to be what is moved or computed with, not an amount.
pub fn takes_left_first(step: LinkStep) -> bool
    ensures { result ≡ is.takes_left_first step }
{
    match step {
        LinkStep::MoveBy => false,
        LinkStep::Arithmetic(_, _)
        | LinkStep::Shift { .. }
        | LinkStep::Move { .. }
        | LinkStep::Difference
        | LinkStep::Compare(_) => true,
    }
}

/// Whether an expression needs no statement before its value.
#[cycle(purity)]
pub fn is_pure(e: &TypedExpr) -> bool
    ensures { result ≡ is.is_pure (t.view_expr e.now) }
{
    match &e.form {
        Form::Constant(_) | Form::Null => true,
        Form::Read(place) => is_pure_place(place),
        Form::Decay(place) => is_pure_place(place),
        Form::Address(place) => is_pure_place(place),
        Form::Unary(_, a) => is_pure(a),
        Form::Convert(a) => is_pure(a),
        Form::Chain(a, links) => is_pure(a) && are_pure_links(links),
        Form::Discard(_)
        | Form::Logical(_, _, _)
        | Form::Choice(_, _, _)
        | Form::Assign(_, _)
        | Form::Compound { .. }
        | Form::Step { .. }
        | Form::Call(_, _) => false,
    }
}

// whether no link of a chain needs one
#[cycle(purity)]
fn are_pure_links(links: &[TypedLink]) -> bool
    ensures { result ≡ is.are_pure_links (t.link_trees (map t.view_link links.now)) }
{
    for link in links {
        if !is_pure_link(link) {
            return false;
        }
    }
    true
}

#[cycle(purity)]
fn is_pure_link(link: &TypedLink) -> bool
    ensures { result ≡ (is.takes_left_first link.now.step && is.is_pure (t.view_expr link.now.operand)) }
{
    takes_left_first(link.step) && is_pure(&link.operand)
}

// the same of a place
#[cycle(purity)]
fn is_pure_place(place: &Place) -> bool
    ensures { result ≡ is.is_pure_place (t.view_place place.now) }
{
    is_pure_root(&place.root) && are_pure_steps(&place.steps)
}

#[cycle(purity)]
fn is_pure_root(root: &Root) -> bool
    ensures { result ≡ is.is_pure_root (t.view_root root.now) }
{
    match root {
        Root::Local(_) | Root::Global(_) => true,
        Root::Deref { pointer, .. } => is_pure(pointer),
        Root::Assigned(_) => false,
    }
}

#[cycle(purity)]
fn are_pure_steps(steps: &[PlaceStep]) -> bool
    ensures { result ≡ is.are_pure_steps (t.step_trees (map t.view_step steps.now)) }
{
    for step in steps {
        if !is_pure_step(step) {
            return false;
        }
    }
    true
}

#[cycle(purity)]
fn is_pure_step(step: &PlaceStep) -> bool
    ensures { result ≡ is_pure_step (t.view_step step.now) }
{
    match step {
        PlaceStep::Field(_) => true,
        PlaceStep::Item { index, .. } => is_pure(index),
    }
}

/// Whether the value before a link has to be held: where it is moved by, or statements come
/// between.
pub fn holds_left(link: &TypedLink) -> bool
    ensures { result ≡ (not (is.takes_left_first link.now.step) || not (is.is_pure (t.view_expr link.now.operand))) }
{
    !takes_left_first(link.step) || !is_pure(&link.operand)
}

/// Whether the left place of an assignment of this value is fixed: where statements come between,
/// and where it is used once more.
pub fn fixes_left(used: bool, value: &TypedExpr) -> bool
    ensures { result ≡ (used || not (is.is_pure (t.view_expr value.now))) }
{
    used || !is_pure(value)
}

/// From which argument on all are pure: none that stands before the last impure one.
pub fn pure_from(arguments: &[TypedExpr]) -> usize
    ensures { (k : ℕ) → is.are_pure (t.expr_trees (map t.view_expr (drop k arguments.now))) ≡ not (nat_lt k result) }
{
    let mut from = arguments.len();
    while from > 0 {
        if !is_pure(&arguments[from - 1]) {
            return from;
        }
        from -= 1;
    }
    0
}
