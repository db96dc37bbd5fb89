// Copies of statements and functions.
ghost use Rattle.std.specs.Prelude.{◌≡◌, IfOk, map, option_map};
ghost use Rattle.pt_core.specs.CodeTree.{view_expr, view_function, view_stmt};

use crate::expression::Expr;
use crate::function::CoreFn;
use crate::statement::Stmt;
use pt_base::Listed;
use std::alloc::{AllocError, Global};
use typed_tree::{Var, Vars};

// expressions that are equal to these
fn copied_exprs(alloc: Global, exprs: &[Expr]) -> Result<Vec<Expr>, AllocError>
    ensures { IfOk result (λ v. map view_expr v.items ≡ map view_expr exprs.now) }
{
    let mut copies = Vec::with_capacity(alloc, exprs.len())?;
    for expr in exprs {
        copies.push(expr.copy(alloc)?)?;
    }
    Ok(copies)
}

// the same, where there is an expression
fn copied_value(alloc: Global, value: &Option<Expr>) -> Result<Option<Expr>, AllocError>
    ensures { IfOk result (λ o. option_map view_expr o ≡ option_map view_expr value.now) }
{
    match value {
        Some(value) => Ok(Some(value.copy(alloc)?)),
        None => Ok(None),
    }
}

// variables that are equal to these
fn copied_vars(alloc: Global, vars: &[Var]) -> Result<Vars, AllocError>
    ensures { IfOk result (λ v. v ≡ vars.now) }
{
    let mut copies = Vec::with_capacity(alloc, vars.len())?;
    for var in vars {
        copies.push(var.copy(alloc)?)?;
    }
    Ok(Listed::new(copies))
}

impl Stmt {
    /// A statement that is equal to this one.
    #[cycle(copies)]
    pub(crate) fn copy(&self, alloc: Global) -> Result<Stmt, AllocError>
        ensures { IfOk result (λ s. view_stmt s ≡ view_stmt self.now) }
    {
        match self {
            Stmt::Clear { var } => Ok(Stmt::Clear { var: *var }),
            Stmt::Check { place } => Ok(Stmt::Check {
                place: place.copy(alloc)?,
            }),
            Stmt::Assign { place, value } => Ok(Stmt::Assign {
                place: place.copy(alloc)?,
                value: value.copy(alloc)?,
            }),
            Stmt::Copy { to, of } => Ok(Stmt::Copy {
                to: to.copy(alloc)?,
                of: of.copy(alloc)?,
            }),
            Stmt::Call {
                callee,
                args,
                result,
                span,
            } => Ok(Stmt::Call {
                callee: *callee,
                args: copied_exprs(alloc, args)?,
                result: *result,
                span: *span,
            }),
            Stmt::If { cond, yes, no } => Ok(Stmt::choose(
                cond.copy(alloc)?,
                copied(alloc, yes)?,
                copied(alloc, no)?,
            )),
            Stmt::Loop { body, span } => Ok(Stmt::repeat(copied(alloc, body)?, *span)),
            Stmt::Break => Ok(Stmt::Break),
            Stmt::Continue => Ok(Stmt::Continue),
            Stmt::Return { value } => Ok(Stmt::Return {
                value: copied_value(alloc, value)?,
            }),
        }
    }
}

// statements that are equal to these
#[cycle(copies)]
fn copied(alloc: Global, statements: &[Stmt]) -> Result<Vec<Stmt>, AllocError>
    ensures { IfOk result (λ v. map view_stmt v.items ≡ map view_stmt statements.now) }
{
    let mut copies = Vec::with_capacity(alloc, statements.len())?;
    for statement in statements {
        copies.push(statement.copy(alloc)?)?;
    }
    Ok(copies)
}

impl CoreFn {
    /// A function that is equal to this one. A chain of operators to the left takes
    /// no stack for its links.
    pub fn copy(&self, alloc: Global) -> Result<CoreFn, AllocError>
        ensures { IfOk result (λ f. view_function f ≡ view_function self.now) }
    {
        Ok(CoreFn {
            id: self.id,
            params: self.params,
            vars: copied_vars(alloc, self.vars.as_slice())?,
            body: copied(alloc, &self.body)?,
            end: self.end,
        })
    }
}
