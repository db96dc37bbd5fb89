// Operators as C spells them, and chains of them.
ghost use Rattle.std.specs.Prelude.{◌≡◌, ◌++◌, ◌∷◌, [], IfOk, OnOk, map, true};
ghost use Rattle.pt_tree.specs.ExpressionTree.{chain, view_expr, view_link, link_trees};
ghost use Rattle.half_trees.specs.Expressions as trees;
ghost use Rattle.half_trees.specs.Names as names;

use crate::names::NOWHERE;
use pt_base::Span;
use pt_int::{BinOp, UnOp};
use pt_tree::{BinaryOp, Expr, Link, PrefixOp};
use std::alloc::{AllocError, Global};

/// The operator before one operand.
pub(crate) fn prefix_of(op: UnOp) -> PrefixOp
    ensures { result ≡ trees.prefix_of op }
{
    match op {
        UnOp::Minus => PrefixOp::Minus,
        UnOp::Plus => PrefixOp::Plus,
        UnOp::Flip => PrefixOp::Complement,
        UnOp::Not => PrefixOp::Not,
    }
}

/// The operator between two operands.
pub(crate) fn operator_of(op: BinOp) -> BinaryOp
    ensures { result ≡ trees.operator_of op }
{
    match op {
        BinOp::Mul => BinaryOp::Multiply,
        BinOp::Div => BinaryOp::Divide,
        BinOp::Rem => BinaryOp::Remainder,
        BinOp::Add => BinaryOp::Add,
        BinOp::Sub => BinaryOp::Subtract,
        BinOp::Shl => BinaryOp::ShiftLeft,
        BinOp::Shr => BinaryOp::ShiftRight,
        BinOp::Lt => BinaryOp::Less,
        BinOp::Gt => BinaryOp::Greater,
        BinOp::Le => BinaryOp::LessEqual,
        BinOp::Ge => BinaryOp::GreaterEqual,
        BinOp::Eq => BinaryOp::Equal,
        BinOp::Ne => BinaryOp::NotEqual,
        BinOp::And => BinaryOp::BitAnd,
        BinOp::Xor => BinaryOp::BitXor,
        BinOp::Or => BinaryOp::BitOr,
    }
}

// How tightly an operator binds, the loosest ones 0.
fn level_of(op: BinaryOp) -> u8
    ensures { result ≡ trees.level_of op }
{
    match op {
        BinaryOp::LogicalOr => 0,
        BinaryOp::LogicalAnd => 1,
        BinaryOp::BitOr => 2,
        BinaryOp::BitXor => 3,
        BinaryOp::BitAnd => 4,
        BinaryOp::Equal | BinaryOp::NotEqual => 5,
        BinaryOp::Less | BinaryOp::Greater => 6,
        BinaryOp::LessEqual | BinaryOp::GreaterEqual => 6,
        BinaryOp::ShiftLeft | BinaryOp::ShiftRight => 7,
        BinaryOp::Add | BinaryOp::Subtract => 8,
        BinaryOp::Multiply | BinaryOp::Divide | BinaryOp::Remainder => 9,
    }
}

// Whether two operators bind alike.
fn binds_alike(a: BinaryOp, b: BinaryOp) -> bool
    ensures { result ≡ trees.binds_alike a b }
{
    level_of(a) == level_of(b)
}

// Whether the links are those of a chain of operators that bind as tightly as this one.
fn are_alike(links: &[Link], op: BinaryOp) -> bool
    ensures { result ≡ trees.are_alike (link_trees (map view_link links.now)) op }
{
    match links.first() {
        Some(link) => binds_alike(link.op, op),
        None => false,
    }
}

// A chain of its own with one operator.
fn chain_of(alloc: Global, op: BinaryOp, a: Expr, b: Expr) -> Result<Expr, AllocError>
    ensures { IfOk result (λ e. view_expr e ≡ trees.chain_of op (view_expr a) (view_expr b)) }
{
    let mut links = Vec::new(alloc);
    links.push(Link {
        span: NOWHERE,
        op,
        operand: b,
    })?;
    Expr::chained(alloc, NOWHERE, a, links)
}

// Whether an operator makes a chain longer.
fn goes_on(a: &Expr, op: BinaryOp) -> bool
    ensures { result ≡ trees.goes_on op (view_expr a.now) }
{
    match a {
        Expr::Chain(_, _, links) => are_alike(links, op),
        Expr::Name(_)
        | Expr::Constant(_)
        | Expr::Prefix(..)
        | Expr::Cast(..)
        | Expr::Postfix(..)
        | Expr::Choice(..)
        | Expr::Assign(..) => false,
    }
}

// A link more for the parts of a chain, of which the first stays.
fn add_link(
    span: &mut Span,
    first: &mut Box<Expr>,
    links: &mut Vec<Link>,
    link: Link,
) -> Result<(), AllocError>
    ensures span { span.new ≡ names.nowhere }
    ensures first { first.new ≡ first.old }
    ensures links { OnOk result (links.new.items ≡ links.old.items ++ link ∷ []) }
{
    let _first = first;
    *span = NOWHERE;
    links.push(link)?;
    Ok(())
}

// A chain with a link more.
fn longer(op: BinaryOp, mut a: Expr, b: Expr) -> Result<Expr, AllocError>
    requires { trees.goes_on op (view_expr a) ≡ true }
    ensures { IfOk result (λ e. view_expr e ≡ trees.linked op (view_expr a) (view_expr b)) }
{
    let link = Link {
        span: NOWHERE,
        op,
        operand: b,
    };
    match &mut a {
        Expr::Chain(span, first, links) => add_link(span, first, links, link)?,
        Expr::Name(_)
        | Expr::Constant(_)
        | Expr::Prefix(..)
        | Expr::Cast(..)
        | Expr::Postfix(..)
        | Expr::Choice(..)
        | Expr::Assign(..) => unreachable!(),
    }
    Ok(a)
}

/// Two operands and the operator between them; a left operand that is a chain of operators that
/// bind alike is made longer, in constant time on average.
pub(crate) fn linked(alloc: Global, op: BinaryOp, a: Expr, b: Expr) -> Result<Expr, AllocError>
    ensures { IfOk result (λ e. view_expr e ≡ trees.linked op (view_expr a) (view_expr b)) }
{
    if goes_on(&a, op) {
        longer(op, a, b)
    } else {
        chain_of(alloc, op, a, b)
    }
}
