// What globals start with.
ghost use Rattle.std.specs.Prelude.{◌≡◌, ℤ, IfOk, map};
ghost use Rattle.std.specs.Int.RustNames.{unsigned_abs};
ghost use Rattle.pt_tree.specs.ExpressionTree.{view_expr};
ghost use Rattle.pt_tree.specs.StatementTree.{view_init};
ghost use Rattle.half_trees.specs.Declarations as declared;

use crate::names::NOWHERE;
use pt_base::IntType;
use pt_tree::{Constant, Expr, Initializer, PrefixOp};
use std::alloc::{AllocError, Global};
use typed_tree::VarTy;

// A constant of type unsigned long.
fn large(n: u128) -> Expr
    ensures { view_expr result ≡ declared.large n }
{
    Expr::Constant(Constant {
        span: NOWHERE,
        value: (n % (1u128 << 64)) as i128,
        ty: IntType::ULong,
    })
}

// One number that an object starts with.
fn cell_tree(alloc: Global, value: i128) -> Result<Expr, AllocError>
    ensures { IfOk result (λ e. view_expr e ≡ declared.cell_tree value) }
{
    let n = large(value.unsigned_abs());
    if value < 0 {
        Expr::prefixed(alloc, NOWHERE, PrefixOp::Minus, n)
    } else {
        Ok(n)
    }
}

// The numbers that an object starts with, in braces.
fn cells_init(alloc: Global, cells: &[i128]) -> Result<Initializer, AllocError>
    ensures { IfOk result (λ i. view_init (Some i) ≡ declared.cells_init cells.now) }
{
    let mut items = Vec::with_capacity(alloc, cells.len())?;
    for cell in cells {
        items.push(cell_tree(alloc, *cell)?)?;
    }
    Ok(Initializer::Braces(NOWHERE, items))
}

// The number that an integer starts with, if there is one.
fn integer_init(alloc: Global, cells: &[i128]) -> Result<Option<Initializer>, AllocError>
    ensures { IfOk result (λ i. view_init i ≡ declared.integer_init cells.now) }
{
    match cells.first() {
        Some(cell) => Ok(Some(Initializer::Single(cell_tree(alloc, *cell)?))),
        None => Ok(None),
    }
}

/// What an object of this type starts with.
pub(crate) fn initial(
    alloc: Global,
    ty: VarTy,
    cells: &[i128],
) -> Result<Option<Initializer>, AllocError>
    ensures { IfOk result (λ i. view_init i ≡ declared.initial ty cells.now) }
{
    match ty {
        VarTy::Int(_) => integer_init(alloc, cells),
        VarTy::Struct(_) | VarTy::Array { .. } | VarTy::Pointer { .. } => {
            Ok(Some(cells_init(alloc, cells)?))
        }
    }
}
