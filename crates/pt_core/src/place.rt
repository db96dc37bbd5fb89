// Places: the objects that statements and expressions name.
ghost use Rattle.std.specs.Prelude.{◌≡◌, IfOk};
ghost use Rattle.pt_core.specs.CodeTree.{deref, view_expr, view_root};

use crate::expression::Expr;
use pt_base::{GlobalId, Span, VarId};
use std::alloc::{AllocError, Global};

/// An object: where it begins, and the fields that lead from there into its parts.
#[derive(Drop)]
#[cycle(expressions)]
pub struct Place {
    pub root: Root,
    /// The numbers of the fields, the outermost first.
    pub path: Vec<u32>,
}

/// Where a place begins.
#[derive(Drop)]
#[cycle(expressions)]
pub enum Root {
    /// A variable of the function.
    Local(VarId),
    Global(GlobalId),
    /// What a pointer points to. The span is that of a trap.
    Deref { pointer: Box<Expr>, span: Span },
}

impl Root {
    /// What this pointer points to.
    pub fn deref(alloc: Global, pointer: Expr, span: Span) -> Result<Root, AllocError>
        ensures { IfOk result (λ r. view_root r ≡ deref (view_expr pointer) span) }
    {
        Ok(Root::Deref {
            pointer: Box::new(alloc, pointer)?,
            span,
        })
    }
}
