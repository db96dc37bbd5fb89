// How tightly operators bind.
ghost use Rattle.std.specs.Prelude.{◌≡◌, ◌≤◌, map};
ghost use Rattle.pt_tree.specs.ExpressionTree.{view_expr, view_link, link_trees};
ghost use Rattle.c_printer.specs.Kinds as kinds;

use pt_tree::{BinaryOp, Expr, Link};

/// How tightly an expression holds together.
pub(crate) fn tightness(e: &Expr) -> u8
    ensures { result ≡ kinds.tightness (view_expr e.now) }
{
    match e {
        Expr::Name(_) => 14,
        Expr::Constant(_) => 13,
        Expr::Prefix(_, _, _) => 12,
        Expr::Cast(_, _, _, _) => 12,
        Expr::Postfix(_, _, _) => 13,
        Expr::Chain(_, _, links) => chain_binding(links),
        Expr::Choice(_, _, _, _) => 1,
        Expr::Assign(_, _, _, _) => 0,
    }
}

/// How tightly the first operator of a chain binds.
pub(crate) fn chain_binding(links: &[Link]) -> u8
    ensures is { result ≡ kinds.chain_binding (link_trees (map view_link links.now)) }
    ensures small { result ≤ 14 }
{
    match links {
        [] => 14,
        [first, ..] => binding(first.op),
    }
}

/// How tightly an operator between two operands binds.
pub(crate) fn binding(op: BinaryOp) -> u8
    ensures is { result ≡ kinds.binding op }
    ensures small { result ≤ 11 }
{
    match op {
        BinaryOp::LogicalOr => 2,
        BinaryOp::LogicalAnd => 3,
        BinaryOp::BitOr => 4,
        BinaryOp::BitXor => 5,
        BinaryOp::BitAnd => 6,
        BinaryOp::Equal | BinaryOp::NotEqual => 7,
        BinaryOp::Less | BinaryOp::Greater | BinaryOp::LessEqual | BinaryOp::GreaterEqual => 8,
        BinaryOp::ShiftLeft | BinaryOp::ShiftRight => 9,
        BinaryOp::Add | BinaryOp::Subtract => 10,
        BinaryOp::Multiply | BinaryOp::Divide | BinaryOp::Remainder => 11,
    }
}
