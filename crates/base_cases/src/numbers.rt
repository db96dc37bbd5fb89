// Arithmetic at the edges of the integer types.
use anyhow::{Context, Result, bail};
use case_rows::{int_name, int_type};
use pt_base::{IntType, Trap};
use pt_int::{BinOp, UnOp, binary, convert, in_range, promote, unary, usual};
use std::alloc::Global;

/// What the row gives: `binary T OP A B`, `unary T OP A`, `convert V T`, `promote T` or `usual T T`.
///
/// # Errors
///
/// A row of another form, a number out of its type's range, and want of memory.
pub fn reckoned(alloc: Global, row: &str) -> Result<String> {
    let mut words = row.split_whitespace();
    let form = words.next();
    let (first, second, third, last) = (words.next(), words.next(), words.next(), words.next());
    match (form, first, second, third, last) {
        (Some("binary"), Some(t), Some(op), Some(a), Some(b)) => binary_of(alloc, row, t, op, a, b),
        (Some("unary"), Some(t), Some(op), Some(a), None) => unary_of(alloc, row, t, op, a),
        (Some("convert"), Some(v), Some(t), None, None) => {
            let number = convert(v.parse::<i128>()?, int_type(t)?);
            Ok(format!(in alloc; "{row} => {number}")?)
        }
        (Some("promote"), Some(t), None, None, None) => {
            shown_type(alloc, row, promote(int_type(t)?))
        }
        (Some("usual"), Some(a), Some(b), None, None) => {
            shown_type(alloc, row, usual(int_type(a)?, int_type(b)?))
        }
        _ => bail!("no row of arithmetic"),
    }
}

fn binary_of(alloc: Global, row: &str, t: &str, op: &str, a: &str, b: &str) -> Result<String> {
    let (t, op) = (int_type(t)?, binary_operator(op)?);
    let (a, b) = (a.parse::<i128>()?, b.parse::<i128>()?);
    if !in_range(t, a) || !(op.is_shift() || in_range(t, b)) {
        bail!("out of range");
    }
    shown_result(alloc, row, binary(op, t, a, b))
}

fn unary_of(alloc: Global, row: &str, t: &str, op: &str, a: &str) -> Result<String> {
    let (t, a) = (int_type(t)?, a.parse::<i128>()?);
    let op = match op {
        "-" => UnOp::Minus,
        "+" => UnOp::Plus,
        "~" => UnOp::Flip,
        "!" => UnOp::Not,
        _ => bail!("no operator: {op}"),
    };
    if !in_range(t, a) {
        bail!("out of range");
    }
    shown_result(alloc, row, unary(op, t, a))
}

fn binary_operator(op: &str) -> Result<BinOp> {
    Ok(match op {
        "*" => BinOp::Mul,
        "/" => BinOp::Div,
        "%" => BinOp::Rem,
        "+" => BinOp::Add,
        "-" => BinOp::Sub,
        "<<" => BinOp::Shl,
        ">>" => BinOp::Shr,
        "<" => BinOp::Lt,
        ">" => BinOp::Gt,
        "<=" => BinOp::Le,
        ">=" => BinOp::Ge,
        "==" => BinOp::Eq,
        "!=" => BinOp::Ne,
        "&" => BinOp::And,
        "^" => BinOp::Xor,
        "|" => BinOp::Or,
        _ => bail!("no operator: {op}"),
    })
}

fn shown_result(alloc: Global, row: &str, given: Result<i128, Trap>) -> Result<String> {
    Ok(match given {
        Ok(number) => format!(in alloc; "{row} => {number}")?,
        Err(trap) => format!(in alloc; "{row} => {}", trap.name())?,
    })
}

fn shown_type(alloc: Global, row: &str, ty: IntType) -> Result<String> {
    Ok(format!(in alloc; "{row} => {}", int_name(ty))?)
}
