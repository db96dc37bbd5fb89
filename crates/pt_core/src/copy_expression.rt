// Copies of expressions and places, made by a loop down their left operands.
ghost use Rattle.std.specs.Prelude.{◌≡◌, ◌<◌, None, Some, IfOk, IfSome, MatchOption, option_map};
ghost use Rattle.pt_core.specs.declared.expression.Expr.{size-Expr};
ghost use Rattle.pt_core.specs.declared.place.Place.{size-Place};
ghost use Rattle.pt_core.specs.CodeTree.{view_expr, view_place};
ghost use Rattle.pt_core.specs.LeftOperand.{left_of, pointer_in};

use crate::expression::Expr;
use crate::place::{Place, Root};
use std::alloc::{AllocError, Global};

impl Place {
    /// A place that is equal to this one.
    pub fn copy(&self, alloc: Global) -> Result<Place, AllocError>
        ensures { IfOk result (λ p. view_place p ≡ view_place self.now) }
    {
        let pointer = match self.pointer() {
            Some(pointer) => Some(pointer.copy(alloc)?),
            None => None,
        };
        self.rebuilt(alloc, pointer)
    }

    // the pointer at which it begins, where it does
    fn pointer(&self) -> Option<&Expr>
        ensures is { MatchOption result (pointer_in (view_place self.now) ≡ None) (λ e. pointer_in (view_place self.now) ≡ Some (view_expr e.now)) }
        ensures smaller { IfSome result (λ e. size-Expr e.now < size-Place self.now) }
    {
        match &self.root {
            Root::Local(_) | Root::Global(_) => None,
            Root::Deref { pointer, span: _ } => Some(pointer),
        }
    }

    // a place that is equal to this one, from a copy of its pointer
    fn rebuilt(&self, alloc: Global, pointer: Option<Expr>) -> Result<Place, AllocError>
        requires { option_map view_expr pointer ≡ pointer_in (view_place self.now) }
        ensures { IfOk result (λ p. view_place p ≡ view_place self.now) }
    {
        let path = Vec::from_slice(alloc, &self.path)?;
        let root = match &self.root {
            Root::Local(v) => Root::Local(*v),
            Root::Global(g) => Root::Global(*g),
            Root::Deref { pointer: _, span } => Root::deref(alloc, pointer.unwrap(), *span)?,
        };
        Ok(Place { root, path })
    }
}

impl Expr {
    /// An expression that is equal to this one. However long a chain of operators is to the left,
    /// it takes no stack.
    #[cycle(copies)]
    pub fn copy(&self, alloc: Global) -> Result<Expr, AllocError>
        ensures { IfOk result (λ e. view_expr e ≡ view_expr self.now) }
    {
        let mut above: Vec<&Expr> = Vec::new(alloc);
        let mut at = self;
        while let Some(left) = at.left() {
            above.push(at)?;
            at = left;
        }
        let mut copied = at.rebuilt(alloc, None)?;
        while let Some(expr) = above.pop() {
            copied = expr.rebuilt(alloc, Some(copied))?;
        }
        Ok(copied)
    }

    // its first operand, or the pointer of its place
    fn left(&self) -> Option<&Expr>
        ensures is { MatchOption result (left_of (view_expr self.now) ≡ None) (λ e. left_of (view_expr self.now) ≡ Some (view_expr e.now)) }
        ensures smaller { IfSome result (λ e. size-Expr e.now < size-Expr self.now) }
    {
        match self {
            Expr::Const { .. } | Expr::Null { .. } => None,
            Expr::Read { place } | Expr::Addr { place } | Expr::Decay { place } => place.pointer(),
            Expr::Unary { a, .. } | Expr::Convert { a, .. } => Some(a),
            Expr::Binary { a, .. } | Expr::Compare { a, .. } | Expr::Diff { a, .. } => Some(a),
            Expr::Move { pointer, .. } => Some(pointer),
        }
    }

    // an expression that is equal to this one, from a copy of its left operand
    #[cycle(copies)]
    fn rebuilt(&self, alloc: Global, left: Option<Expr>) -> Result<Expr, AllocError>
        requires { option_map view_expr left ≡ left_of (view_expr self.now) }
        ensures { IfOk result (λ e. view_expr e ≡ view_expr self.now) }
    {
        match self {
            Expr::Const { ty, value } => Ok(Expr::Const {
                ty: *ty,
                value: *value,
            }),
            Expr::Null { elem } => Ok(Expr::Null { elem: *elem }),
            Expr::Read { place } => Ok(Expr::read(place.rebuilt(alloc, left)?)),
            Expr::Addr { place } => Ok(Expr::address(place.rebuilt(alloc, left)?)),
            Expr::Decay { place } => Ok(Expr::decay(place.rebuilt(alloc, left)?)),
            Expr::Unary { op, ty, span, .. } => {
                Expr::unary(alloc, *op, *ty, left.unwrap(), *span)
            }
            Expr::Binary {
                op,
                ty,
                b,
                span,
                ..
            } => { Expr::binary(alloc, *op, *ty, left.unwrap(), b.copy(alloc)?, *span) }
            Expr::Convert { to, .. } => Expr::convert(alloc, *to, left.unwrap()),
            Expr::Move { by, back, span, .. } => {
                Expr::moved(alloc, left.unwrap(), by.copy(alloc)?, *back, *span)
            }
            Expr::Compare { op, b, span, .. } => {
                Expr::compare(alloc, *op, left.unwrap(), b.copy(alloc)?, *span)
            }
            Expr::Diff { b, span, .. } => {
                Expr::difference(alloc, left.unwrap(), b.copy(alloc)?, *span)
            }
        }
    }
}
