// Statements.
ghost use Rattle.std.specs.Prelude.{◌≡◌, IfOk, map, option_map};
ghost use Rattle.pt_tree.specs.ExpressionTree.{view_expr};
ghost use Rattle.pt_tree.specs.StatementTree.{block, choose, while_true, do_while, for_each, switch, no_else, otherwise, view_stmt, view_for_init, view_section, stmt_trees, section_trees};

use crate::declaration::Declaration;
use crate::expression::Expr;
use pt_base::Span;
use std::alloc::{AllocError, Global};

/// A statement (C99 6.8), or a declaration among the items of a block.
#[cycle(statements)]
pub enum Stmt {
    Declare(Declaration),
    Block(Block),
    Empty(Span),
    Expr(Span, Expr),
    If(Span, Expr, Box<Stmt>, Option<Box<Stmt>>),
    While(Span, Expr, Box<Stmt>),
    Do(Span, Box<Stmt>, Expr),
    For(Span, ForInit, Option<Expr>, Option<Expr>, Box<Stmt>),
    Return(Span, Option<Expr>),
    Break(Span),
    Continue(Span),
    Switch(Span, Expr, Vec<Section>),
}

impl Drop for Stmt {
    #[cycle(statements)]
    fn drop(self) {
        match self {
            Stmt::Declare(_inner) => {}
            Stmt::Block(_inner) => {}
            Stmt::Empty(_) => {}
            Stmt::Expr(_, _inner) => {}
            Stmt::If(_, _first, _second, _third) => {}
            Stmt::While(_, _first, _second) => {}
            Stmt::Do(_, _first, _second) => {}
            Stmt::For(_, _first, _second, _third, _fourth) => {}
            Stmt::Return(_, _inner) => {}
            Stmt::Break(_) => {}
            Stmt::Continue(_) => {}
            Stmt::Switch(_, _first, _second) => {}
        }
    }
}

/// Braces with the declarations and statements between them (C99 6.8.2).
#[cycle(statements)]
pub struct Block {
    pub span: Span,
    pub items: Vec<Stmt>,
}

impl Drop for Block {
    #[cycle(statements)]
    fn drop(self) {
        let Block {
            span: _,
            items: _items,
        } = self;
    }
}

/// A label of a switch and the statements up to the next one.
#[cycle(statements)]
pub struct Section {
    pub span: Span,
    pub label: Label,
    pub statements: Vec<Stmt>,
}

impl Drop for Section {
    #[cycle(statements)]
    fn drop(self) {
        let Section {
            span: _,
            label: _label,
            statements: _statements,
        } = self;
    }
}

/// A label of a switch (C99 6.8.1).
pub enum Label {
    Case(Span, Expr),
    Default(Span),
}

impl Drop for Label {
    fn drop(self) {
        match self {
            Label::Case(_, _inner) => {}
            Label::Default(_) => {}
        }
    }
}

/// What stands first in the parentheses of a `for`.
pub enum ForInit {
    Declare(Declaration),
    Nothing,
    Expr(Expr),
}

impl Drop for ForInit {
    fn drop(self) {
        match self {
            ForInit::Declare(_inner) => {}
            ForInit::Nothing => {}
            ForInit::Expr(_inner) => {}
        }
    }
}

impl Stmt {
    /// A block as a statement.
    pub fn braces(inner: Block) -> Stmt
        ensures { view_stmt result ≡ block inner.span (stmt_trees (map view_stmt inner.items.items)) }
    {
        Stmt::Block(inner)
    }

    /// An `if` without `else`.
    pub fn when(alloc: Global, span: Span, test: Expr, yes: Stmt) -> Result<Stmt, AllocError>
        ensures { IfOk result (λ s. view_stmt s ≡ choose span (view_expr test) (view_stmt yes) no_else) }
    {
        Ok(Stmt::If(span, test, Box::new(alloc, yes)?, None))
    }

    /// An `if` with `else`.
    pub fn choice(
        alloc: Global,
        span: Span,
        test: Expr,
        yes: Stmt,
        no: Stmt,
    ) -> Result<Stmt, AllocError>
        ensures { IfOk result (λ s. view_stmt s ≡ choose span (view_expr test) (view_stmt yes) (otherwise (view_stmt no))) }
    {
        Ok(Stmt::If(
            span,
            test,
            Box::new(alloc, yes)?,
            Some(Box::new(alloc, no)?),
        ))
    }

    /// A `while`.
    pub fn while_true(alloc: Global, span: Span, test: Expr, body: Stmt) -> Result<Stmt, AllocError>
        ensures { IfOk result (λ s. view_stmt s ≡ while_true span (view_expr test) (view_stmt body)) }
    {
        Ok(Stmt::While(span, test, Box::new(alloc, body)?))
    }

    /// A `do`.
    pub fn do_while(alloc: Global, span: Span, body: Stmt, test: Expr) -> Result<Stmt, AllocError>
        ensures { IfOk result (λ s. view_stmt s ≡ do_while span (view_stmt body) (view_expr test)) }
    {
        Ok(Stmt::Do(span, Box::new(alloc, body)?, test))
    }

    /// A `for`.
    pub fn for_each(
        alloc: Global,
        span: Span,
        init: ForInit,
        test: Option<Expr>,
        step: Option<Expr>,
        body: Stmt,
    ) -> Result<Stmt, AllocError>
        ensures { IfOk result (λ s. view_stmt s ≡ for_each span (view_for_init init) (option_map view_expr test) (option_map view_expr step) (view_stmt body)) }
    {
        Ok(Stmt::For(span, init, test, step, Box::new(alloc, body)?))
    }

    /// A `switch`.
    pub fn switch(span: Span, on: Expr, sections: Vec<Section>) -> Stmt
        ensures { view_stmt result ≡ switch span (view_expr on) (section_trees (map view_section sections.items)) }
    {
        Stmt::Switch(span, on, sections)
    }
}
