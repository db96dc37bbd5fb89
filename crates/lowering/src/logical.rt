// The statements of `&&` and `||`, behind those of their operands.
ghost use Rattle.std.specs.Prelude.{◌≡◌, IfOk, OnOk, map};
ghost use Rattle.typed_tree.specs.ExpressionTree as t;
ghost use Rattle.pt_core.specs.CodeTree.{view_expr, view_stmt};
ghost use Rattle.lowering.specs.Lowered.{Effects, Lowered, past};
ghost use Rattle.lowering.specs.Expressions as is;
ghost use Rattle.lowering.specs.Functions.{span_of};
ghost use Rattle.lowering.specs.Output.{Output, output_of, next, opened, Gives, Does};

use crate::operators::truth_of;
use crate::output::{Lowering, temp};
use crate::temporary::Temporary;
use pt_base::{IntType, Span, VarId};
use pt_core::{Expr, Stmt};
use std::alloc::{AllocError, Global};
use typed_tree::{LogicalOp, VarTy};

/// Holds the truth of the first operand, of the type `ty`, in a temporary for the whole.
pub fn started(
    alloc: Global,
    span: Span,
    ty: VarTy,
    first: Expr,
    lowering: &mut Lowering,
) -> Result<VarId, AllocError>
    ensures number { (o : Output) (low : Lowered) → Gives o low (output_of lowering.old) (view_expr first) → IfOk result (λ k. k.0 ≡ past (next o) low.temps) }
    ensures output { (o : Output) (whole : t.ExprTree) (low : Lowered) → Gives o low (output_of lowering.old) (view_expr first) → span_of whole ≡ span → OnOk result (Does o (is.started whole (past (next o) low.temps) ty span low) (output_of lowering.new)) }
{
    let truth = truth_of(alloc, ty, first, span)?;
    let whole = Temporary::holding(VarTy::Int(IntType::Int), span);
    lowering.hold(alloc, whole, truth)
}

/// Behind the value of an operand of `&&` or `||`, whose type is `ty` and whose statements stand in
/// a list of their own: its truth is kept in the temporary `k`, all where the value so far, which
/// stands in that temporary, leaves the whole open. Then the list before it, `outer`, goes on.
pub fn with_operand(
    alloc: Global,
    op: LogicalOp,
    k: VarId,
    ty: VarTy,
    span: Span,
    value: Expr,
    outer: Vec<Stmt>,
    lowering: &mut Lowering,
) -> Result<(), AllocError>
    ensures { (o before : Output) (far : Effects) (low : Lowered) → Does o far before → map view_stmt outer.items ≡ before.stmts → Gives (opened before) low (output_of lowering.old) (view_expr value) → OnOk result (Does o (is.with_operand op k.0 ty span far low) (output_of lowering.new)) }
{
    let truth = truth_of(alloc, ty, value, span)?;
    lowering.give(alloc, k, truth)?;
    let inner = lowering.end(outer);
    lowering.add(where_open(alloc, op, k, inner))
}

// what an operand does where the value so far leaves it open
fn where_open(alloc: Global, op: LogicalOp, k: VarId, stmts: Vec<Stmt>) -> Stmt
    ensures { view_stmt result ≡ is.where_open op k.0 (map view_stmt stmts.items) }
{
    match op {
        LogicalOp::And => Stmt::choose(temp(alloc, k), stmts, Vec::new(alloc)),
        LogicalOp::Or => Stmt::choose(temp(alloc, k), Vec::new(alloc), stmts),
    }
}
