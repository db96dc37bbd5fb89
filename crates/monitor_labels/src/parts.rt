// What expressions and places consist of, as far as labels ask.
ghost use Rattle.std.specs.Prelude.{◌≡◌, ◌<◌, ℕ, IfNone, IfSome, IsTrue};
ghost use Rattle.pt_core.specs.declared.expression.Expr.{size-Expr};
ghost use Rattle.pt_core.specs.CodeTree.{view_expr};
ghost use Rattle.monitor_labels.specs.Arrows.{start_of};
ghost use Rattle.monitor_labels.specs.Parts.{ArePartsOf, ArePlaceParts, is_start, parts_size, start_in};

use pt_base::{GlobalId, VarId};
use pt_core::{Expr, Place, Root};

/// The parts of an expression or a place.
#[derive(Clone, Copy)]
pub(crate) enum Parts<'a> {
    /// Nothing is read.
    Nothing,
    Variable(VarId),
    Global(GlobalId),
    /// An object that a pointer points to, or a part of it.
    Behind(&'a Expr),
    /// A pointer that is moved by an amount.
    Moved(&'a Expr, &'a Expr),
    /// A number that is computed from another,
    One(&'a Expr),
    /// or from two numbers or pointers.
    Two(&'a Expr, &'a Expr),
}

/// The parts of a place: where it begins.
pub(crate) fn place_parts(place: &Place) -> Parts<'_>
    ensures { ArePlaceParts place.now result }
{
    match &place.root {
        Root::Local(v) => Parts::Variable(*v),
        Root::Global(g) => Parts::Global(*g),
        Root::Deref { pointer, .. } => Parts::Behind(pointer),
    }
}

/// The parts of an expression.
pub(crate) fn parts_of(e: &Expr) -> Parts<'_>
    ensures { ArePartsOf e.now result }
{
    match e {
        Expr::Const { .. } | Expr::Null { .. } => Parts::Nothing,
        Expr::Read { place } => place_parts(place),
        Expr::Addr { place } => place_parts(place),
        Expr::Decay { place } => place_parts(place),
        Expr::Unary { a, .. } => Parts::One(a),
        Expr::Convert { a, .. } => Parts::One(a),
        Expr::Binary { a, b, .. } => Parts::Two(a, b),
        Expr::Compare { a, b, .. } => Parts::Two(a, b),
        Expr::Diff { a, b, .. } => Parts::Two(a, b),
        Expr::Move { pointer, by, .. } => Parts::Moved(pointer, by),
    }
}

/// The pointer that the whole starts from what it starts from, if there is one.
pub(crate) fn pointer_in<'a>(parts: Parts<'a>) -> Option<&'a Expr>
    ensures same { IfSome result (λ e. (f : ℕ) → start_in f parts.entry ≡ start_of f (view_expr e.now)) }
    ensures smaller { IfSome result (λ e. size-Expr e.now < parts_size parts.entry) }
    ensures none { IfNone result (IsTrue (is_start parts.entry)) }
{
    match parts {
        Parts::Behind(pointer) => Some(pointer),
        Parts::Moved(pointer, _) => Some(pointer),
        Parts::Nothing | Parts::Variable(_) | Parts::Global(_) | Parts::One(_) | Parts::Two(_, _) =>
            None,
    }
}
