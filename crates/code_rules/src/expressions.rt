// The types of expressions and of places, None where they aren't well formed.
ghost use Rattle.std.specs.Prelude.{◌≡◌, ◌<◌, IfSome, IsTrue};
ghost use Rattle.pt_core.specs.declared.expression.Expr.{size-Expr};
ghost use Rattle.pt_core.specs.CodeTree.{view_expr, view_place, view_root};
ghost use Rattle.pt_core.specs.WellFormedExpression.{is_addressed};
ghost use Rattle.code_rules.specs.Links.{IsLink};
ghost use Rattle.code_rules.specs.Parts.{is_number as is_wanted};
ghost use Rattle.code_rules.specs.Scopes.{are_ordered, context_of};
ghost use Rattle.code_rules.specs.Typing.{placed, rooted, typed};

use crate::fields::along;
use crate::names::{Scope, global_type, variable_type};
use crate::operators::{
    address_type, compared, constant_type, decayed_type, joined, moved, null_type, pointed_type,
    prefixed, subtracted, value_type,
};
use crate::types::is_number;
use pt_base::IntType;
use pt_core::{Expr, Place, Root};
use typed_tree::VarTy;

// An expression whose left operand has to be a number.
#[derive(Clone, Copy)]
struct Link<'a> {
    // the type of the whole, if that operand is well formed and of its kind
    whole: Option<VarTy>,
    left: &'a Expr,
    // the type that the operand has to be of, any integer's where none is named
    kind: Option<IntType>,
}

/// The type of an expression. Nesting takes stack, but for chains of operators to the left.
#[cycle(types)]
pub(crate) fn expression_type(e: &Expr, scope: &Scope<'_>) -> Option<VarTy>
    requires { IsTrue (are_ordered scope.now.names.now) }
    ensures { result ≡ typed (context_of scope.now) (view_expr e.now) }
{
    match e {
        Expr::Const { ty, value } => constant_type(*ty, *value),
        Expr::Read { place } => value_type(place_type(place, scope)),
        Expr::Unary { op, ty, a, .. } => prefixed(*op, *ty, number_fits(a, Some(*ty), scope)),
        Expr::Binary { op, ty, a, b, .. } => {
            let fits = number_fits(a, Some(*ty), scope);
            joined(*op, *ty, fits, expression_type(b, scope))
        }
        Expr::Convert { to, a } => number_fits(a, None, scope).then_some(VarTy::Int(*to)),
        Expr::Null { elem } => null_type(scope.names.structs, *elem),
        Expr::Addr { place } => address_type(is_addressed(place), place_type(place, scope)),
        Expr::Decay { place } => decayed_type(place_type(place, scope)),
        Expr::Move { pointer, by, .. } => {
            let pointer = expression_type(pointer, scope);
            moved(pointer, expression_type(by, scope))
        }
        Expr::Compare { op, a, b, .. } => {
            let left = expression_type(a, scope);
            compared(*op, left, expression_type(b, scope))
        }
        Expr::Diff { a, b, .. } => {
            let left = expression_type(a, scope);
            subtracted(left, expression_type(b, scope))
        }
    }
}

// Whether an expression is well formed and an integer of this type, of any where none is wanted.
// It goes down a chain of operators in a loop: a chain to the left takes no stack, however long.
#[cycle(types)]
fn number_fits(e: &Expr, wanted: Option<IntType>, scope: &Scope<'_>) -> bool
    requires { IsTrue (are_ordered scope.now.names.now) }
    ensures { result ≡ is_wanted wanted (typed (context_of scope.now) (view_expr e.now)) }
{
    let mut at = e;
    let mut kind = wanted;
    while let Some(link) = link_of(at, scope) {
        if !is_number(kind, link.whole) {
            return false;
        }
        kind = link.kind;
        at = link.left;
    }
    is_number(kind, expression_type(at, scope))
}

// The expression as a link of a chain, where its left operand has to be a number.
#[cycle(types)]
fn link_of<'a>(e: &'a Expr, scope: &Scope<'_>) -> Option<Link<'a>>
    requires { IsTrue (are_ordered scope.now.names.now) }
    ensures same { IfSome result (λ l. IsLink (context_of scope.now) (view_expr e.now) l.whole (view_expr l.left.now) l.kind) }
    ensures smaller { IfSome result (λ l. size-Expr l.left.now < size-Expr e.now) }
{
    match e {
        Expr::Unary { op, ty, a, .. } => Some(Link {
            whole: prefixed(*op, *ty, true),
            left: a,
            kind: Some(*ty),
        }),
        Expr::Binary { op, ty, a, b, .. } => Some(Link {
            whole: joined(*op, *ty, true, expression_type(b, scope)),
            left: a,
            kind: Some(*ty),
        }),
        Expr::Convert { to, a } => Some(Link {
            whole: Some(VarTy::Int(*to)),
            left: a,
            kind: None,
        }),
        Expr::Const { .. }
        | Expr::Read { .. }
        | Expr::Null { .. }
        | Expr::Addr { .. }
        | Expr::Decay { .. }
        | Expr::Move { .. }
        | Expr::Compare { .. }
        | Expr::Diff { .. } => None,
    }
}

/// The type of the object of a place. Nesting takes stack.
#[cycle(types)]
pub(crate) fn place_type(place: &Place, scope: &Scope<'_>) -> Option<VarTy>
    requires { IsTrue (are_ordered scope.now.names.now) }
    ensures { result ≡ placed (context_of scope.now) (view_place place.now) }
{
    along(
        scope.names.structs,
        root_type(&place.root, scope),
        &place.path,
    )
}

// The type of the object at which a place begins.
#[cycle(types)]
fn root_type(root: &Root, scope: &Scope<'_>) -> Option<VarTy>
    requires { IsTrue (are_ordered scope.now.names.now) }
    ensures { result ≡ rooted (context_of scope.now) (view_root root.now) }
{
    match root {
        Root::Local(v) => variable_type(scope, *v),
        Root::Global(g) => global_type(scope, *g),
        Root::Deref { pointer, .. } => pointed_type(expression_type(pointer, scope)),
    }
}

// Whether `&` may stand before a place: a variable or global, or a field.
fn is_addressed(place: &Place) -> bool
    ensures { result ≡ is_addressed (view_place place.now) }
{
    match &place.root {
        Root::Local(_) | Root::Global(_) => true,
        Root::Deref { .. } => !place.path.is_empty(),
    }
}
