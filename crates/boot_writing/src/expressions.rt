// Writing expressions and places. A chain of left operands is written in a loop: it may have hundreds of
// thousands of links.
ghost use Rattle.std.specs.Prelude.{◌≡◌, ◌++◌, ◌<◌, None, Some, OnOk, IfSome, MatchOption, map, option_map};
ghost use Rattle.pt_core.specs.declared.expression.Expr.{size-Expr};
ghost use Rattle.pt_core.specs.declared.place.Place.{size-Place};
ghost use Rattle.pt_core.specs.CodeTree.{ExprTree, expr_trees, view_expr, view_place};
ghost use Rattle.pt_core.specs.LeftOperand.{left_of, pointer_in};
ghost use Rattle.boot_fields.specs.Spelling.{option_bytes, expr_bytes, place_bytes, exprs_bytes};
ghost use Rattle.boot_fields.specs.Limits.{FitsExpr, FitsExprs, FitsPlace};
ghost use Rattle.boot_writing.specs.LeftParts.{place_head, place_tail, left_bytes, head_bytes, tail_bytes, FitsPlaceHead, FitsPlaceTail, FitsHead, FitsTail};

use crate::lists::{Spelled, put_list};
use crate::objects::put_elem;
use boot_fields::{binary_number, put_span, put_truth, unary_number};
use pt_core::{Expr, Place, Root};
use std::alloc::AllocError;
use wire::{put_byte, put_i128, put_u32, type_number};

// the pointer at which a place begins, where it does
fn pointer_of(place: &Place) -> Option<&Expr>
    ensures is { MatchOption result (pointer_in (view_place place.now) ≡ None) (λ e. pointer_in (view_place place.now) ≡ Some (view_expr e.now)) }
    ensures smaller { IfSome result (λ e. size-Expr e.now < size-Place place.now) }
{
    match &place.root {
        Root::Local(_) | Root::Global(_) => None,
        Root::Deref { pointer, span: _ } => Some(pointer),
    }
}

// the first operand of an expression, or the pointer of its place
fn left_operand(expr: &Expr) -> Option<&Expr>
    ensures is { MatchOption result (left_of (view_expr expr.now) ≡ None) (λ e. left_of (view_expr expr.now) ≡ Some (view_expr e.now)) }
    ensures smaller { IfSome result (λ e. size-Expr e.now < size-Expr expr.now) }
{
    match expr {
        Expr::Const { .. } | Expr::Null { .. } => None,
        Expr::Read { place } | Expr::Addr { place } | Expr::Decay { place } => pointer_of(place),
        Expr::Unary { a, .. } | Expr::Convert { a, .. } => Some(a),
        Expr::Binary { a, .. } | Expr::Compare { a, .. } | Expr::Diff { a, .. } => Some(a),
        Expr::Move { pointer, .. } => Some(pointer),
    }
}

#[tactic(auto, using(std::proofs::Common::append_assoc))]
fn put_place_head(out: &mut Vec<u8>, place: &Place) -> Result<(), AllocError>
    ensures bytes { OnOk result (out.new.items ≡ out.old.items ++ place_head (view_place place.now)) }
    ensures fits { OnOk result (FitsPlaceHead (view_place place.now)) }
{
    match &place.root {
        Root::Local(variable) => {
            put_byte(out, 0)?;
            put_u32(out, variable.0)?;
        }
        Root::Global(global) => {
            put_byte(out, 1)?;
            put_u32(out, global.0)?;
        }
        Root::Deref { .. } => put_byte(out, 2)?,
    }
    Ok(())
}

#[tactic(auto, using(std::proofs::Common::append_assoc))]
fn put_place_tail(out: &mut Vec<u8>, place: &Place) -> Result<(), AllocError>
    ensures bytes { OnOk result (out.new.items ≡ out.old.items ++ place_tail (view_place place.now)) }
    ensures fits { OnOk result (FitsPlaceTail (view_place place.now)) }
{
    match &place.root {
        Root::Local(_) | Root::Global(_) => put_list(out, &place.path),
        Root::Deref { pointer: _, span } => {
            put_span(out, *span)?;
            put_list(out, &place.path)
        }
    }
}

// what stands before the first operand
#[tactic(auto, using(std::proofs::Common::append_assoc))]
fn put_head(out: &mut Vec<u8>, expr: &Expr) -> Result<(), AllocError>
    ensures bytes { OnOk result (out.new.items ≡ out.old.items ++ head_bytes (view_expr expr.now)) }
    ensures fits { OnOk result (FitsHead (view_expr expr.now)) }
{
    match expr {
        Expr::Const { ty, value } => {
            put_byte(out, 0)?;
            put_byte(out, type_number(*ty))?;
            put_i128(out, value)?;
        }
        Expr::Read { place } => {
            put_byte(out, 1)?;
            put_place_head(out, place)?;
        }
        Expr::Unary { op, ty, .. } => {
            put_byte(out, 2)?;
            put_byte(out, unary_number(*op))?;
            put_byte(out, type_number(*ty))?;
        }
        Expr::Binary { op, ty, .. } => {
            put_byte(out, 3)?;
            put_byte(out, binary_number(*op))?;
            put_byte(out, type_number(*ty))?;
        }
        Expr::Convert { to, .. } => {
            put_byte(out, 4)?;
            put_byte(out, type_number(*to))?;
        }
        Expr::Null { elem } => {
            put_byte(out, 5)?;
            put_elem(out, *elem)?;
        }
        Expr::Addr { place } => {
            put_byte(out, 6)?;
            put_place_head(out, place)?;
        }
        Expr::Decay { place } => {
            put_byte(out, 7)?;
            put_place_head(out, place)?;
        }
        Expr::Move { .. } => put_byte(out, 8)?,
        Expr::Compare { op, .. } => {
            put_byte(out, 9)?;
            put_byte(out, binary_number(*op))?;
        }
        Expr::Diff { .. } => put_byte(out, 10)?,
    }
    Ok(())
}

// what stands behind the first operand
#[tactic(auto, using(std::proofs::Common::append_assoc))]
#[cycle(tails)]
fn put_tail(out: &mut Vec<u8>, expr: &Expr) -> Result<(), AllocError>
    ensures bytes { OnOk result (out.new.items ≡ out.old.items ++ tail_bytes (view_expr expr.now)) }
    ensures fits { OnOk result (FitsTail (view_expr expr.now)) }
{
    match expr {
        Expr::Const { .. } | Expr::Null { .. } | Expr::Convert { .. } => Ok(()),
        Expr::Read { place } => put_place_tail(out, place),
        Expr::Addr { place } => put_place_tail(out, place),
        Expr::Decay { place } => put_place_tail(out, place),
        Expr::Unary { span, .. } => put_span(out, *span),
        Expr::Binary { b, span, .. } => {
            put_expr(out, b)?;
            put_span(out, *span)
        }
        Expr::Move { by, back, span, .. } => {
            put_expr(out, by)?;
            put_truth(out, *back)?;
            put_span(out, *span)
        }
        Expr::Compare { b, span, .. } => {
            put_expr(out, b)?;
            put_span(out, *span)
        }
        Expr::Diff { b, span, .. } => {
            put_expr(out, b)?;
            put_span(out, *span)
        }
    }
}

// However long a chain of operators is to the left, it takes no stack.
#[cycle(tails)]
pub(crate) fn put_expr(out: &mut Vec<u8>, whole: &Expr) -> Result<(), AllocError>
    ensures bytes { OnOk result (out.new.items ≡ out.old.items ++ expr_bytes (view_expr whole.now)) }
    ensures fits { OnOk result (FitsExpr (view_expr whole.now)) }
{
    let mut above: Vec<&Expr> = Vec::new(*out.allocator());
    let mut at = whole;
    while let Some(left) = left_operand(at) {
        put_head(out, at)?;
        above.push(at)?;
        at = left;
    }
    put_head(out, at)?;
    put_tail(out, at)?;
    while let Some(expr) = above.pop() {
        put_tail(out, expr)?;
    }
    Ok(())
}

fn put_pointer(out: &mut Vec<u8>, place: &Place) -> Result<(), AllocError>
    ensures bytes { OnOk result (out.new.items ≡ out.old.items ++ left_bytes (pointer_in (view_place place.now))) }
    ensures fits { OnOk result (IfSome (pointer_in (view_place place.now)) FitsExpr) }
{
    match pointer_of(place) {
        None => Ok(()),
        Some(pointer) => put_expr(out, pointer),
    }
}

pub(crate) fn put_place(out: &mut Vec<u8>, place: &Place) -> Result<(), AllocError>
    ensures bytes { OnOk result (out.new.items ≡ out.old.items ++ place_bytes (view_place place.now)) }
    ensures fits { OnOk result (FitsPlace (view_place place.now)) }
{
    put_place_head(out, place)?;
    put_pointer(out, place)?;
    put_place_tail(out, place)
}

impl Spelled for Expr {
    ghost Seen = { ExprTree };

    ghost seen = { view_expr };

    ghost spelling = { expr_bytes };

    ghost Fits = { FitsExpr };

    fn put(&self, out: &mut Vec<u8>) -> Result<(), AllocError> {
        put_expr(out, self)
    }
}

pub(crate) fn put_exprs(out: &mut Vec<u8>, exprs: &[Expr]) -> Result<(), AllocError>
    ensures bytes { OnOk result (out.new.items ≡ out.old.items ++ exprs_bytes (expr_trees (map view_expr exprs.now))) }
    ensures fits { OnOk result (FitsExprs (expr_trees (map view_expr exprs.now))) }
{
    put_list(out, exprs)
}

// an expression, where there is one
#[tactic(auto, using(std::proofs::Common::append_assoc))]
pub(crate) fn put_value(out: &mut Vec<u8>, value: &Option<Expr>) -> Result<(), AllocError>
    ensures bytes { OnOk result (out.new.items ≡ out.old.items ++ option_bytes expr_bytes (option_map view_expr value.now)) }
    ensures fits { OnOk result (IfSome (option_map view_expr value.now) FitsExpr) }
{
    match value {
        None => put_byte(out, 0)?,
        Some(expr) => {
            put_byte(out, 1)?;
            put_expr(out, expr)?;
        }
    }
    Ok(())
}
