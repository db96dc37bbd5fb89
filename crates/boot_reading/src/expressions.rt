// Reading expressions and places, which stand at most so many nodes deep one inside the other. A chain of
// left operands is read in a loop: it may have hundreds of thousands of links.
ghost use Rattle.std.specs.Prelude.{◌≡◌, ◌+◌, [], Ok, IfOk, length, map, option_map, reverse};
ghost use Rattle.pt_core.specs.CodeTree.{view_expr, view_place};
ghost use Rattle.boot_fields.specs.Reading.{Gives, list_at, option_at, place_at, expr_at};
ghost use Rattle.boot_reading.specs.ChainReading.{GivesBy, operand_at, pointed_at, closed_at, upwards};

use crate::lists::list;
use crate::starts::{Head, Start, place_start, start_of};
use boot_fields::{ReadError, number_u64, span, truth};
use pt_base::Span;
use pt_core::{Expr, Place, Root};
use std::alloc::Global;

// the place that begins with this pointer
#[tactic(auto, unfolding(crate::specs::ChainReading::pointed_at))]
fn pointed(alloc: Global, pointer: Expr, bytes: &[u8]) -> Result<(Place, &[u8]), ReadError>
    ensures { Gives (λ x. (view_place x.0, x.1.now)) result (pointed_at (view_expr pointer) bytes.now) }
{
    let (span, rest) = span(bytes)?;
    let (path, rest) = list(alloc, rest)?;
    let root = Root::deref(alloc, pointer, span)?;
    Ok((Place { root, path }, rest))
}

// a second operand and a span
#[cycle(nodes)]
fn operand(alloc: Global, depth: u32, bytes: &[u8]) -> Result<((Expr, Span), &[u8]), ReadError>
    ensures { Gives (λ x. ((view_expr x.0.0, x.0.1), x.1.now)) result (operand_at (expr_at depth) bytes.now) }
{
    let (expr, rest) = expr(alloc, depth, bytes)?;
    let (span, rest) = span(rest)?;
    Ok(((expr, span), rest))
}

// the expression that begins so and has this first operand
#[tactic(auto, unfolding(crate::specs::ChainReading::closed_at))]
#[cycle(nodes)]
fn closed(
    alloc: Global,
    depth: u32,
    head: Head,
    a: Expr,
    bytes: &[u8],
) -> Result<(Expr, &[u8]), ReadError>
    ensures { Gives (λ x. (view_expr x.0, x.1.now)) result (closed_at (expr_at depth) head (view_expr a) bytes.now) }
{
    match head {
        Head::Unary(op, ty) => {
            let (span, rest) = span(bytes)?;
            Ok((Expr::unary(alloc, op, ty, a, span)?, rest))
        }
        Head::Binary(op, ty) => {
            let ((b, span), rest) = operand(alloc, depth, bytes)?;
            Ok((Expr::binary(alloc, op, ty, a, b, span)?, rest))
        }
        Head::Convert(to) => Ok((Expr::convert(alloc, to, a)?, bytes)),
        Head::Move => {
            let (by, rest) = expr(alloc, depth, bytes)?;
            let (back, rest) = truth(rest)?;
            let (span, rest) = span(rest)?;
            Ok((Expr::moved(alloc, a, by, back, span)?, rest))
        }
        Head::Compare(op) => {
            let ((b, span), rest) = operand(alloc, depth, bytes)?;
            Ok((Expr::compare(alloc, op, a, b, span)?, rest))
        }
        Head::Diff => {
            let ((b, span), rest) = operand(alloc, depth, bytes)?;
            Ok((Expr::difference(alloc, a, b, span)?, rest))
        }
        Head::Read => {
            let (place, rest) = pointed(alloc, a, bytes)?;
            Ok((Expr::read(place), rest))
        }
        Head::Addr => {
            let (place, rest) = pointed(alloc, a, bytes)?;
            Ok((Expr::address(place), rest))
        }
        Head::Decay => {
            let (place, rest) = pointed(alloc, a, bytes)?;
            Ok((Expr::decay(place), rest))
        }
    }
}

// The innermost of the first operands, with how many nodes may stand inside it and itself; what stands
// before it goes to `heads`.
fn innermost<'a>(
    alloc: Global,
    depth: u32,
    bytes: &'a [u8],
    heads: &mut Vec<Head>,
) -> Result<((u32, Expr), &'a [u8]), ReadError>
    requires { heads.old.items ≡ [] }
    ensures down { GivesBy (λ x. upwards x.0.0 (reverse heads.new.items) (Ok (view_expr x.0.1, x.1.now))) result (expr_at depth bytes.now) }
    ensures deep { IfOk result (λ x. x.0.0 + length heads.new.items ≡ depth) }
{
    let mut left = depth;
    let mut rest = bytes;
    while left > 0 {
        let (start, after) = start_of(alloc, rest)?;
        match start {
            Start::Whole(expr) => return Ok(((left, expr), after)),
            Start::Opens(head) => heads.push(head)?,
        }
        left -= 1;
        rest = after;
    }
    Err(ReadError::Memory)
}

// However long a chain of operators is to the left, it takes no stack.
#[cycle(nodes)]
pub(crate) fn expr(alloc: Global, depth: u32, bytes: &[u8]) -> Result<(Expr, &[u8]), ReadError>
    ensures { Gives (λ x. (view_expr x.0, x.1.now)) result (expr_at depth bytes.now) }
{
    let mut heads = Vec::new(alloc);
    let ((inside, first), front) = innermost(alloc, depth, bytes, &mut heads)?;
    let mut left = inside;
    let mut found = first;
    let mut rest = front;
    while let Some(head) = heads.pop() {
        let (whole, after) = closed(alloc, left, head, found, rest)?;
        found = whole;
        rest = after;
        left += 1;
    }
    Ok((found, rest))
}

pub(crate) fn place(alloc: Global, depth: u32, bytes: &[u8]) -> Result<(Place, &[u8]), ReadError>
    ensures { Gives (λ x. (view_place x.0, x.1.now)) result (place_at (expr_at depth) bytes.now) }
{
    let (found, rest) = place_start(alloc, bytes)?;
    match found {
        Some(place) => Ok((place, rest)),
        None => {
            let (pointer, rest) = expr(alloc, depth, rest)?;
            pointed(alloc, pointer, rest)
        }
    }
}

pub(crate) fn exprs(
    alloc: Global,
    depth: u32,
    bytes: &[u8],
) -> Result<(Vec<Expr>, &[u8]), ReadError>
    ensures { Gives (λ x. (map view_expr x.0.items, x.1.now)) result (list_at (expr_at depth) bytes.now) }
{
    let (count, front) = number_u64(bytes)?;
    let mut items = Vec::new(alloc);
    let mut rest = front;
    for _ in 0..count {
        let (item, after) = expr(alloc, depth, rest)?;
        items.push(item)?;
        rest = after;
    }
    Ok((items, rest))
}

// an expression, where there is one
#[tactic(auto, unfolding(boot_fields::specs::Reading::option_at))]
pub(crate) fn value(
    alloc: Global,
    depth: u32,
    bytes: &[u8],
) -> Result<(Option<Expr>, &[u8]), ReadError>
    ensures { Gives (λ x. (option_map view_expr x.0, x.1.now)) result (option_at (expr_at depth) bytes.now) }
{
    match bytes {
        [] => Err(ReadError::Bad),
        [0, rest @ ..] => Ok((None, rest)),
        [1, rest @ ..] => {
            let (expr, rest) = expr(alloc, depth, rest)?;
            Ok((Some(expr), rest))
        }
        [_, ..] => Err(ReadError::Bad),
    }
}
