// Statements, the single steps of a function.
ghost use Rattle.std.specs.Prelude.{◌≡◌, map};
ghost use Rattle.pt_core.specs.CodeTree.{choose, repeat, stmt_trees, view_expr, view_stmt};

use crate::expression::Expr;
use crate::place::Place;
use pt_base::{FnId, Span, VarId};

/// A statement.
#[cycle(statements)]
pub enum Stmt {
    /// The cells of a variable become zero, or a pointer null.
    Clear {
        var: VarId,
    },
    /// A place is found and its value dropped.
    Check {
        place: Place,
    },
    /// The place is found, then the integer or pointer is computed and stored there.
    Assign {
        place: Place,
        value: Expr,
    },
    /// An object is copied to another of its type, which is found first.
    Copy {
        to: Place,
        of: Place,
    },
    /// A call, whose result is stored in a variable where there is one.
    Call {
        callee: FnId,
        args: Vec<Expr>,
        result: Option<VarId>,
        span: Span,
    },
    If {
        cond: Expr,
        yes: Vec<Stmt>,
        no: Vec<Stmt>,
    },
    /// A turn begins each time that control comes to the head.
    Loop {
        body: Vec<Stmt>,
        span: Span,
    },
    /// Leaves the innermost loop.
    Break,
    /// Goes to the head of the innermost loop.
    Continue,
    Return {
        value: Option<Expr>,
    },
}

impl Drop for Stmt {
    #[cycle(statements)]
    fn drop(self) {
        match self {
            Stmt::Clear { var: _ } => {}
            Stmt::Check { place: _place } => {}
            Stmt::Assign {
                place: _place,
                value: _value,
            } => {}
            Stmt::Copy { to: _to, of: _of } => {}
            Stmt::Call {
                callee: _,
                args: _args,
                result: _,
                span: _,
            } => {}
            Stmt::If {
                cond: _cond,
                yes: _yes,
                no: _no,
            } => {}
            Stmt::Loop {
                body: _body,
                span: _,
            } => {}
            Stmt::Break => {}
            Stmt::Continue => {}
            Stmt::Return { value: _value } => {}
        }
    }
}

impl Stmt {
    /// One of two lists of statements.
    pub fn choose(cond: Expr, yes: Vec<Stmt>, no: Vec<Stmt>) -> Stmt
        ensures { view_stmt result ≡ choose (view_expr cond) (stmt_trees (map view_stmt yes.items)) (stmt_trees (map view_stmt no.items)) }
    {
        Stmt::If { cond, yes, no }
    }

    /// A loop.
    pub fn repeat(body: Vec<Stmt>, span: Span) -> Stmt
        ensures { view_stmt result ≡ repeat (stmt_trees (map view_stmt body.items)) span }
    {
        Stmt::Loop { body, span }
    }
}
