// The copy of a function in the normal form.
use anyhow::Result;
use pt_base::{FnId, IntType, Listed, Span};
use pt_core::{CoreFn, Expr, Stmt};
use pt_int::BinOp;
use std::alloc::{AllocError, Global};

const NOWHERE: Span = Span { from: 0, to: 0 };

fn one() -> Expr {
    Expr::Const {
        ty: IntType::Int,
        value: 1,
    }
}

// A sum of ones with so many additions.
fn sum(alloc: Global, links: u32) -> Result<Expr, AllocError> {
    let mut expr = one();
    for _ in 0..links {
        expr = Expr::binary(alloc, BinOp::Add, IntType::Int, expr, one(), NOWHERE)?;
    }
    Ok(expr)
}

// How many operators stand to the left, one in the other.
fn depth(expr: &Expr) -> u32 {
    let mut count: u32 = 0;
    let mut at = expr;
    while let Expr::Binary { a, .. } = at {
        count = count.saturating_add(1);
        at = a;
    }
    count
}

// A function that returns this.
fn returning(alloc: Global, value: Expr) -> Result<CoreFn, AllocError> {
    let mut body = Vec::new(alloc);
    body.push(Stmt::Return { value: Some(value) })?;
    Ok(CoreFn {
        id: FnId(0),
        params: 0,
        vars: Listed::new(Vec::new(alloc)),
        body,
        end: NOWHERE,
    })
}

// How deep the expression is that a function returns.
fn returned_depth(function: &CoreFn) -> u32 {
    match function.body.first() {
        Some(Stmt::Return { value: Some(value) }) => depth(value),
        _ => 0,
    }
}

/// A function that returns a sum of so many additions, and its copy: how deep each is.
///
/// # Errors
///
/// Want of memory.
pub fn copied(alloc: Global, links: &str) -> Result<String> {
    let function = returning(alloc, sum(alloc, links.parse::<u32>()?)?)?;
    let copy = function.copy(alloc)?;
    let (first, second) = (returned_depth(&function), returned_depth(&copy));
    Ok(format!(in alloc; "copied {links} => {first}, {second}")?)
}
