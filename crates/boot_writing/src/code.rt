// Writing statements, functions and globals.
ghost use Rattle.std.specs.Prelude.{◌≡◌, ◌++◌, OnOk, IfSome, map, option_map};
ghost use Rattle.wire.specs.Spelling.{four_bytes};
ghost use Rattle.pt_core.specs.CodeTree.{FunctionTree, GlobalTree, stmt_trees, view_stmt, view_function, view_global};
ghost use Rattle.boot_fields.specs.Spelling.{option_bytes, stmt_bytes, stmts_bytes, function_bytes, global_bytes};
ghost use Rattle.boot_fields.specs.Limits.{Fits32, FitsStmt, FitsStmts, FitsFunction, FitsGlobal};

use crate::expressions::{put_expr, put_exprs, put_place, put_value};
use crate::lists::{Spelled, put_list};
use boot_fields::{put_count, put_span};
use pt_base::VarId;
use pt_core::{CoreFn, GlobalVar, Stmt};
use std::alloc::AllocError;
use wire::{put_byte, put_u32};

// the variable that a result goes to, where there is one
#[tactic(auto, using(std::proofs::Common::append_assoc))]
fn put_target(out: &mut Vec<u8>, variable: Option<VarId>) -> Result<(), AllocError>
    ensures bytes { OnOk result (out.new.items ≡ out.old.items ++ option_bytes four_bytes (option_map (λ v. v.0) variable)) }
    ensures fits { OnOk result (IfSome (option_map (λ v. v.0) variable) Fits32) }
{
    match variable {
        None => put_byte(out, 0)?,
        Some(variable) => {
            put_byte(out, 1)?;
            put_u32(out, variable.0)?;
        }
    }
    Ok(())
}

#[tactic(auto, using(std::proofs::Common::append_assoc))]
#[cycle(blocks)]
fn put_stmt(out: &mut Vec<u8>, statement: &Stmt) -> Result<(), AllocError>
    ensures bytes { OnOk result (out.new.items ≡ out.old.items ++ stmt_bytes (view_stmt statement.now)) }
    ensures fits { OnOk result (FitsStmt (view_stmt statement.now)) }
{
    match statement {
        Stmt::Clear { var } => {
            put_byte(out, 0)?;
            put_u32(out, var.0)
        }
        Stmt::Check { place } => {
            put_byte(out, 1)?;
            put_place(out, place)
        }
        Stmt::Assign { place, value } => {
            put_byte(out, 2)?;
            put_place(out, place)?;
            put_expr(out, value)
        }
        Stmt::Copy { to, of } => {
            put_byte(out, 3)?;
            put_place(out, to)?;
            put_place(out, of)
        }
        Stmt::Call {
            callee,
            args,
            result,
            span,
        } => {
            put_byte(out, 4)?;
            put_u32(out, callee.0)?;
            put_exprs(out, args)?;
            put_target(out, *result)?;
            put_span(out, *span)
        }
        Stmt::If { cond, yes, no } => {
            put_byte(out, 5)?;
            put_expr(out, cond)?;
            put_stmts(out, yes)?;
            put_stmts(out, no)
        }
        Stmt::Loop { body, span } => {
            put_byte(out, 6)?;
            put_stmts(out, body)?;
            put_span(out, *span)
        }
        Stmt::Break => put_byte(out, 7),
        Stmt::Continue => put_byte(out, 8),
        Stmt::Return { value } => {
            put_byte(out, 9)?;
            put_value(out, value)
        }
    }
}

#[cycle(blocks)]
fn put_stmts(out: &mut Vec<u8>, statements: &[Stmt]) -> Result<(), AllocError>
    ensures bytes { OnOk result (out.new.items ≡ out.old.items ++ stmts_bytes (stmt_trees (map view_stmt statements.now))) }
    ensures fits { OnOk result (FitsStmts (stmt_trees (map view_stmt statements.now))) }
{
    put_count(out, statements.len())?;
    for statement in statements {
        put_stmt(out, statement)?;
    }
    Ok(())
}

impl Spelled for CoreFn {
    ghost Seen = { FunctionTree };

    ghost seen = { view_function };

    ghost spelling = { function_bytes };

    ghost Fits = { FitsFunction };

    #[tactic(auto, using(std::proofs::Common::append_assoc))]
    fn put(&self, out: &mut Vec<u8>) -> Result<(), AllocError> {
        put_u32(out, self.id.0)?;
        put_byte(out, self.params)?;
        put_list(out, self.vars.as_slice())?;
        put_stmts(out, &self.body)?;
        put_span(out, self.end)
    }
}

impl Spelled for GlobalVar {
    ghost Seen = { GlobalTree };

    ghost seen = { view_global };

    ghost spelling = { global_bytes };

    ghost Fits = { FitsGlobal };

    #[tactic(auto, using(std::proofs::Common::append_assoc))]
    fn put(&self, out: &mut Vec<u8>) -> Result<(), AllocError> {
        put_u32(out, self.id.0)?;
        self.var.put(out)?;
        put_list(out, self.cells.as_slice())
    }
}
