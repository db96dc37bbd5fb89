// Expressions.
ghost use Rattle.std.specs.Prelude.{◌≡◌, IfOk, map, Some, None};
ghost use Rattle.pt_tree.specs.SpecifierTree.{view_spec, spec_trees};
ghost use Rattle.pt_tree.specs.ExpressionTree.{prefix, cast, postfix, chain, choice, assign, call, view_expr, view_link, view_postfix, expr_trees, link_trees, postfix_trees};

use crate::operator::{BinaryOp, PrefixOp};
use crate::specifier::Spec;
use crate::word::{Constant, Word};
use pt_base::Span;
use std::alloc::{AllocError, Global};

/// An expression (C99 6.5). A span has the first to past the last of its tokens; parentheses round
/// an expression belong to what it stands in.
#[cycle(expressions)]
pub enum Expr {
    Name(Word),
    Constant(Constant),
    /// An operator before its operand.
    Prefix(Span, PrefixOp, Box<Expr>),
    /// A cast: the specifiers, whether `*` follows them, and the operand.
    Cast(Span, Vec<Spec>, bool, Box<Expr>),
    /// An operand and what stands behind it, at least one postfix.
    Postfix(Span, Box<Expr>, Vec<Postfix>),
    /// The operators of one level, which group to the left: the first operand, and at least one link.
    Chain(Span, Box<Expr>, Vec<Link>),
    /// `test ? yes : no`
    Choice(Span, Box<Expr>, Box<Expr>, Box<Expr>),
    /// An assignment, with the operator of a compound one.
    Assign(Span, Option<BinaryOp>, Box<Expr>, Box<Expr>),
}

impl Drop for Expr {
    #[cycle(expressions)]
    fn drop(self) {
        match self {
            Expr::Name(_inner) => {}
            Expr::Constant(_) => {}
            Expr::Prefix(_, _, _inner) => {}
            Expr::Cast(_, _first, _, _second) => {}
            Expr::Postfix(_, _first, _second) => {}
            Expr::Chain(_, _first, _second) => {}
            Expr::Choice(_, _first, _second, _third) => {}
            Expr::Assign(_, _, _first, _second) => {}
        }
    }
}

/// An operator and its right operand, whose span is that of both. The left operand is all that the
/// chain has before.
#[cycle(expressions)]
pub struct Link {
    pub span: Span,
    pub op: BinaryOp,
    pub operand: Expr,
}

impl Drop for Link {
    #[cycle(expressions)]
    fn drop(self) {
        let Link {
            span: _,
            op: _,
            operand: _operand,
        } = self;
    }
}

/// What stands behind an operand, with its own span. The operand is all that stands before.
#[cycle(expressions)]
pub enum Postfix {
    Index(Span, Expr),
    Call(Span, Vec<Expr>),
    /// `.name`
    Field(Span, Word),
    /// `->name`
    Arrow(Span, Word),
    Increment(Span),
    Decrement(Span),
}

impl Drop for Postfix {
    #[cycle(expressions)]
    fn drop(self) {
        match self {
            Postfix::Index(_, _inner) => {}
            Postfix::Call(_, _inner) => {}
            Postfix::Field(_, _inner) => {}
            Postfix::Arrow(_, _inner) => {}
            Postfix::Increment(_) => {}
            Postfix::Decrement(_) => {}
        }
    }
}

impl Expr {
    /// An operator before its operand.
    pub fn prefixed(
        alloc: Global,
        span: Span,
        op: PrefixOp,
        operand: Expr,
    ) -> Result<Expr, AllocError>
        ensures { IfOk result (λ e. view_expr e ≡ prefix span op (view_expr operand)) }
    {
        Ok(Expr::Prefix(span, op, Box::new(alloc, operand)?))
    }

    /// A cast to what the specifiers say, to a pointer to it where `pointer` holds.
    pub fn cast(
        alloc: Global,
        span: Span,
        specs: Vec<Spec>,
        pointer: bool,
        operand: Expr,
    ) -> Result<Expr, AllocError>
        ensures { IfOk result (λ e. view_expr e ≡ cast span (spec_trees (map view_spec specs.items)) pointer (view_expr operand)) }
    {
        Ok(Expr::Cast(span, specs, pointer, Box::new(alloc, operand)?))
    }

    /// An operand with what stands behind it.
    pub fn with_postfixes(
        alloc: Global,
        span: Span,
        operand: Expr,
        postfixes: Vec<Postfix>,
    ) -> Result<Expr, AllocError>
        ensures { IfOk result (λ e. view_expr e ≡ postfix span (view_expr operand) (postfix_trees (map view_postfix postfixes.items))) }
    {
        Ok(Expr::Postfix(span, Box::new(alloc, operand)?, postfixes))
    }

    /// A first operand and the links behind it.
    pub fn chained(
        alloc: Global,
        span: Span,
        first: Expr,
        links: Vec<Link>,
    ) -> Result<Expr, AllocError>
        ensures { IfOk result (λ e. view_expr e ≡ chain span (view_expr first) (link_trees (map view_link links.items))) }
    {
        Ok(Expr::Chain(span, Box::new(alloc, first)?, links))
    }

    /// `test ? yes : no`
    pub fn chosen(
        alloc: Global,
        span: Span,
        test: Expr,
        yes: Expr,
        no: Expr,
    ) -> Result<Expr, AllocError>
        ensures { IfOk result (λ e. view_expr e ≡ choice span (view_expr test) (view_expr yes) (view_expr no)) }
    {
        Ok(Expr::Choice(
            span,
            Box::new(alloc, test)?,
            Box::new(alloc, yes)?,
            Box::new(alloc, no)?,
        ))
    }

    /// An assignment, by an operator where it is a compound one.
    pub fn assigned(
        alloc: Global,
        span: Span,
        op: Option<BinaryOp>,
        to: Expr,
        value: Expr,
    ) -> Result<Expr, AllocError>
        ensures { IfOk result (λ e. view_expr e ≡ assign span op (view_expr to) (view_expr value)) }
    {
        Ok(Expr::Assign(span, op, Box::new(alloc, to)?, Box::new(alloc, value)?))
    }
}

impl Postfix {
    /// A call with these arguments.
    pub fn called(span: Span, arguments: Vec<Expr>) -> Postfix
        ensures { view_postfix result ≡ call span (expr_trees (map view_expr arguments.items)) }
    {
        Postfix::Call(span, arguments)
    }
}
