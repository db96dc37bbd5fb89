// Statements, which name their outermost expressions by number.
ghost use Rattle.std.specs.Prelude.{◌≡◌, IfOk, map};
ghost use Rattle.typed_tree.specs.StatementTree.{block, choose, while_true, do_while, for_each, switch, no_else, otherwise, view_body, view_section, body_trees, section_trees};

use crate::ids::ExprId;
use pt_base::{IntType, Listed, Span, VarId};
use std::alloc::{AllocError, Global};

/// A statement (C99 6.8), or a declaration among the items of a block.
#[cycle(statements)]
pub enum TypedBody {
    Block(Span, Vec<TypedBody>),
    Empty(Span),
    Evaluate(Span, ExprId),
    Declare(TypedDeclaration),
    If(Span, ExprId, Box<TypedBody>, Option<Box<TypedBody>>),
    While(Span, ExprId, Box<TypedBody>),
    Do(Span, Box<TypedBody>, ExprId),
    For(Span, TypedForInit, Option<ExprId>, Option<ExprId>, Box<TypedBody>),
    Return(Span, Option<ExprId>),
    Break(Span),
    Continue(Span),
    /// What is switched on, unconverted; its promoted type, to which the case values are converted;
    /// and the sections.
    Switch(Span, ExprId, IntType, Vec<TypedSection>),
}

impl Drop for TypedBody {
    #[cycle(statements)]
    fn drop(self) {
        match self {
            TypedBody::Block(_, _inner) => {}
            TypedBody::Empty(_) => {}
            TypedBody::Evaluate(_, _) => {}
            TypedBody::Declare(_inner) => {}
            TypedBody::If(_, _, _first, _second) => {}
            TypedBody::While(_, _, _inner) => {}
            TypedBody::Do(_, _inner, _) => {}
            TypedBody::For(_, _first, _, _, _second) => {}
            TypedBody::Return(_, _) => {}
            TypedBody::Break(_) => {}
            TypedBody::Continue(_) => {}
            TypedBody::Switch(_, _, _, _inner) => {}
        }
    }
}

/// A label of a switch and the statements up to the next one.
#[cycle(statements)]
pub struct TypedSection {
    pub span: Span,
    pub label: TypedLabel,
    pub statements: Vec<TypedBody>,
}

impl Drop for TypedSection {
    #[cycle(statements)]
    fn drop(self) {
        let TypedSection {
            span: _,
            label: _label,
            statements: _statements,
        } = self;
    }
}

/// A label of a switch (C99 6.8.1).
#[derive(Clone, Copy, Debug, PartialEq, Eq)]
pub enum TypedLabel {
    /// The value, converted to the switch's promoted type.
    Case(Span, i128),
    Default(Span),
}

/// A declaration of variables (C99 6.7).
pub struct TypedDeclaration {
    pub span: Span,
    pub declarators: Listed<TypedDeclarator>,
}

impl Drop for TypedDeclaration {
    fn drop(self) {
        let TypedDeclaration {
            span: _,
            declarators: _declarators,
        } = self;
    }
}

/// A declared variable, whose cells become zero each time it is reached, and its initialiser.
pub struct TypedDeclarator {
    pub var: VarId,
    pub init: TypedInit,
}

impl Drop for TypedDeclarator {
    fn drop(self) {
        let TypedDeclarator {
            var: _,
            init: _init,
        } = self;
    }
}

/// The numbers of a brace list's items, in order.
pub type Items = Listed<ExprId>;

/// What a declared variable starts with (C99 6.7.8).
pub enum TypedInit {
    Nothing,
    /// A value of its type.
    Value(ExprId),
    /// A brace list: the first item for the variable's first integer, and so on.
    Items(Span, Items),
}

impl Drop for TypedInit {
    fn drop(self) {
        match self {
            TypedInit::Nothing => {}
            TypedInit::Value(_) => {}
            TypedInit::Items(_, _inner) => {}
        }
    }
}

/// What stands first in the parentheses of a `for`.
pub enum TypedForInit {
    Nothing,
    Declare(TypedDeclaration),
    Evaluate(ExprId),
}

impl Drop for TypedForInit {
    fn drop(self) {
        match self {
            TypedForInit::Nothing => {}
            TypedForInit::Declare(_inner) => {}
            TypedForInit::Evaluate(_) => {}
        }
    }
}

impl TypedBody {
    /// A block of these statements.
    pub fn block(span: Span, statements: Vec<TypedBody>) -> TypedBody
        ensures { view_body result ≡ block span (body_trees (map view_body statements.items)) }
    {
        TypedBody::Block(span, statements)
    }

    /// An `if` without `else`.
    pub fn when(
        alloc: Global,
        span: Span,
        test: ExprId,
        yes: TypedBody,
    ) -> Result<TypedBody, AllocError>
        ensures { IfOk result (λ s. view_body s ≡ choose span test (view_body yes) no_else) }
    {
        Ok(TypedBody::If(span, test, Box::new(alloc, yes)?, None))
    }

    /// An `if` with `else`.
    pub fn choice(
        alloc: Global,
        span: Span,
        test: ExprId,
        yes: TypedBody,
        no: TypedBody,
    ) -> Result<TypedBody, AllocError>
        ensures { IfOk result (λ s. view_body s ≡ choose span test (view_body yes) (otherwise (view_body no))) }
    {
        Ok(TypedBody::If(
            span,
            test,
            Box::new(alloc, yes)?,
            Some(Box::new(alloc, no)?),
        ))
    }

    /// A `while`.
    pub fn while_true(
        alloc: Global,
        span: Span,
        test: ExprId,
        body: TypedBody,
    ) -> Result<TypedBody, AllocError>
        ensures { IfOk result (λ s. view_body s ≡ while_true span test (view_body body)) }
    {
        Ok(TypedBody::While(span, test, Box::new(alloc, body)?))
    }

    /// A `do`.
    pub fn do_while(
        alloc: Global,
        span: Span,
        body: TypedBody,
        test: ExprId,
    ) -> Result<TypedBody, AllocError>
        ensures { IfOk result (λ s. view_body s ≡ do_while span (view_body body) test) }
    {
        Ok(TypedBody::Do(span, Box::new(alloc, body)?, test))
    }

    /// A `for`.
    pub fn for_each(
        alloc: Global,
        span: Span,
        init: TypedForInit,
        test: Option<ExprId>,
        step: Option<ExprId>,
        body: TypedBody,
    ) -> Result<TypedBody, AllocError>
        ensures { IfOk result (λ s. view_body s ≡ for_each span init test step (view_body body)) }
    {
        Ok(TypedBody::For(span, init, test, step, Box::new(alloc, body)?))
    }

    /// A `switch` on an expression with this promoted type.
    pub fn switch(span: Span, on: ExprId, ty: IntType, sections: Vec<TypedSection>) -> TypedBody
        ensures { view_body result ≡ switch span on ty (section_trees (map view_section sections.items)) }
    {
        TypedBody::Switch(span, on, ty, sections)
    }
}
