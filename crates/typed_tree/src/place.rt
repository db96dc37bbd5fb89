// Places: the expressions that designate an object.
ghost use Rattle.std.specs.Prelude.{◌≡◌, IfOk};
ghost use Rattle.typed_tree.specs.ExpressionTree.{deref, assigned, item, view_expr, view_root, view_step};

use crate::expression::TypedExpr;
use pt_base::{GlobalId, Span, VarId};
use std::alloc::{AllocError, Global};

/// An object (C99 6.3.2.1): where it begins, and the way from there into its parts.
#[cycle(expressions)]
pub struct Place {
    pub root: Root,
    pub steps: Vec<PlaceStep>,
}

impl Drop for Place {
    #[cycle(expressions)]
    fn drop(self) {
        let Place {
            root: _root,
            steps: _steps,
        } = self;
    }
}

/// Where a place begins.
#[cycle(expressions)]
pub enum Root {
    /// A variable of the function.
    Local(VarId),
    Global(GlobalId),
    /// What a pointer points to. The span is that of the whole dereference: of `*E`, of `p[i]` or
    /// of `p->f`.
    Deref { pointer: Box<TypedExpr>, span: Span },
    /// The left object of an assignment of structs, after it.
    Assigned(Box<TypedExpr>),
}

impl Drop for Root {
    #[cycle(expressions)]
    fn drop(self) {
        match self {
            Root::Local(_) => {}
            Root::Global(_) => {}
            Root::Deref {
                pointer: _pointer,
                span: _,
            } => {}
            Root::Assigned(_inner) => {}
        }
    }
}

/// A step into a part of an object.
#[cycle(expressions)]
pub enum PlaceStep {
    /// The field of this number of a struct.
    Field(u32),
    /// An element of an array: the array decays, the pointer is moved by the index and
    /// dereferenced, all with this span.
    Item { index: TypedExpr, span: Span },
}

impl Drop for PlaceStep {
    #[cycle(expressions)]
    fn drop(self) {
        match self {
            PlaceStep::Field(_) => {}
            PlaceStep::Item {
                index: _index,
                span: _,
            } => {}
        }
    }
}

impl Root {
    /// What this pointer points to.
    pub fn deref(alloc: Global, pointer: TypedExpr, span: Span) -> Result<Root, AllocError>
        ensures { IfOk result (λ r. view_root r ≡ deref (view_expr pointer) span) }
    {
        Ok(Root::Deref {
            pointer: Box::new(alloc, pointer)?,
            span,
        })
    }

    /// The left object of this assignment of structs.
    pub fn assigned(alloc: Global, assignment: TypedExpr) -> Result<Root, AllocError>
        ensures { IfOk result (λ r. view_root r ≡ assigned (view_expr assignment)) }
    {
        Ok(Root::Assigned(Box::new(alloc, assignment)?))
    }
}

impl PlaceStep {
    /// The element of this number of an array.
    pub fn item(index: TypedExpr, span: Span) -> PlaceStep
        ensures { view_step result ≡ item (view_expr index) span }
    {
        PlaceStep::Item { index, span }
    }
}
