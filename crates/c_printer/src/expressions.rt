// Expressions, with parentheses where the tree needs them.
ghost use Rattle.std.specs.Prelude.{◌≡◌, ◌++◌, OnOk, map};
ghost use Rattle.pt_tree.specs.ExpressionTree.{view_expr, view_link, view_postfix, expr_trees, link_trees, postfix_trees};
ghost use Rattle.pt_tree.specs.SpecifierTree.{view_specs};
ghost use Rattle.c_printer.specs.Gaps.{view_gap};
ghost use Rattle.c_printer.specs.Pieces.{tight};
ghost use Rattle.c_printer.specs.Sheets.{lay};
ghost use Rattle.c_printer.specs.Expressions as words;

use crate::gap::Gap;
use crate::sheet::Sheet;
use crate::specifiers::specifiers;
use crate::spelling::{assignment_word, operator_word, prefix_word};
use crate::tightness::{binding, chain_binding, tightness};
use pt_tree::{Expr, Link, Postfix, Spec};
use std::alloc::AllocError;

/// An expression.
#[cycle(expressions)]
#[tactic(auto, using(crate::proofs::Laying::lay_both))]
pub(crate) fn expression(e: &Expr, gap: Gap, sheet: &mut Sheet) -> Result<(), AllocError>
    ensures { OnOk result (sheet.new ≡ lay (words.expression (view_expr e.now) (view_gap gap)) sheet.old) }
{
    match e {
        Expr::Name(word) => sheet.word(gap, word.bytes.as_slice()),
        Expr::Constant(constant) => sheet.constant(gap, *constant),
        Expr::Prefix(_, op, a) => {
            sheet.word(gap, prefix_word(*op))?;
            operand(a, 12, behind_prefix(a), sheet)
        }
        Expr::Cast(_, specs, pointer, a) => cast(a, specs, *pointer, gap, sheet),
        Expr::Postfix(_, a, parts) => {
            operand(a, 14, gap, sheet)?;
            postfixes(parts, sheet)
        }
        Expr::Chain(_, a, parts) => {
            operand(a, chain_binding(parts) + 1, gap, sheet)?;
            links(parts, sheet)
        }
        Expr::Choice(_, a, b, c) => {
            operand(a, 2, gap, sheet)?;
            sheet.word(Gap::Spaced, b"?")?;
            expression(b, Gap::Spaced, sheet)?;
            sheet.word(Gap::Spaced, b":")?;
            operand(c, 1, Gap::Spaced, sheet)
        }
        Expr::Assign(_, op, a, b) => {
            operand(a, 1, gap, sheet)?;
            sheet.word(Gap::Spaced, assignment_word(*op))?;
            expression(b, Gap::Spaced, sheet)
        }
    }
}

/// An operand, in parentheses where it binds less tightly than that.
#[cycle(expressions)]
#[tactic(auto, using(crate::proofs::Laying::lay_both))]
fn operand(e: &Expr, least: u8, gap: Gap, sheet: &mut Sheet) -> Result<(), AllocError>
    ensures { OnOk result (sheet.new ≡ lay (words.operand least (view_expr e.now) (words.expression (view_expr e.now)) (view_gap gap)) sheet.old) }
{
    if least <= tightness(e) {
        return expression(e, gap, sheet);
    }
    sheet.word(gap, b"(")?;
    expression(e, Gap::Tight, sheet)?;
    sheet.word(Gap::Tight, b")")
}

/// A cast of an operand.
#[cycle(expressions)]
#[tactic(auto, using(crate::proofs::Laying::lay_both))]
fn cast(
    a: &Expr,
    specs: &[Spec],
    pointer: bool,
    gap: Gap,
    sheet: &mut Sheet,
) -> Result<(), AllocError>
    ensures { OnOk result (sheet.new ≡ lay (words.cast_words (view_specs specs.now) pointer (view_gap gap) ++ words.operand 12 (view_expr a.now) (words.expression (view_expr a.now)) tight) sheet.old) }
{
    cast_type(specs, pointer, gap, sheet)?;
    operand(a, 12, Gap::Tight, sheet)
}

#[cycle(expressions)]
fn links(links: &[Link], sheet: &mut Sheet) -> Result<(), AllocError>
    ensures { OnOk result (sheet.new ≡ lay (words.links (link_trees (map view_link links.now))) sheet.old) }
{
    for l in links {
        link(l, sheet)?;
    }
    Ok(())
}

#[cycle(expressions)]
fn link(link: &Link, sheet: &mut Sheet) -> Result<(), AllocError>
    ensures { OnOk result (sheet.new ≡ lay (words.link_words (view_link link.now)) sheet.old) }
{
    sheet.word(Gap::Spaced, operator_word(link.op))?;
    operand(&link.operand, binding(link.op) + 1, Gap::Spaced, sheet)
}

#[cycle(expressions)]
fn postfixes(postfixes: &[Postfix], sheet: &mut Sheet) -> Result<(), AllocError>
    ensures { OnOk result (sheet.new ≡ lay (words.postfixes (postfix_trees (map view_postfix postfixes.now))) sheet.old) }
{
    for p in postfixes {
        postfix(p, sheet)?;
    }
    Ok(())
}

#[cycle(expressions)]
#[tactic(auto, using(crate::proofs::Laying::lay_both))]
fn postfix(postfix: &Postfix, sheet: &mut Sheet) -> Result<(), AllocError>
    ensures { OnOk result (sheet.new ≡ lay (words.postfix_words (view_postfix postfix.now)) sheet.old) }
{
    match postfix {
        Postfix::Index(_, e) => {
            sheet.word(Gap::Tight, b"[")?;
            expression(e, Gap::Tight, sheet)?;
            sheet.word(Gap::Tight, b"]")
        }
        Postfix::Call(_, given) => call(given, sheet),
        Postfix::Field(_, word) => {
            sheet.word(Gap::Tight, b".")?;
            sheet.word(Gap::Tight, word.bytes.as_slice())
        }
        Postfix::Arrow(_, word) => {
            sheet.word(Gap::Tight, b"->")?;
            sheet.word(Gap::Tight, word.bytes.as_slice())
        }
        Postfix::Increment(_) => sheet.word(Gap::Tight, b"++"),
        Postfix::Decrement(_) => sheet.word(Gap::Tight, b"--"),
    }
}

/// The arguments of a call.
#[cycle(expressions)]
#[tactic(auto, using(crate::proofs::Laying::lay_both))]
fn call(given: &[Expr], sheet: &mut Sheet) -> Result<(), AllocError>
    ensures { OnOk result (sheet.new ≡ lay (words.call_words (expr_trees (map view_expr given.now))) sheet.old) }
{
    sheet.word(Gap::Tight, b"(")?;
    expressions(given, sheet)?;
    sheet.word(Gap::Tight, b")")
}

/// Expressions, divided by commas.
#[cycle(expressions)]
pub(crate) fn expressions(es: &[Expr], sheet: &mut Sheet) -> Result<(), AllocError>
    ensures { OnOk result (sheet.new ≡ lay (words.expressions (expr_trees (map view_expr es.now))) sheet.old) }
{
    let mut is_first = true;
    for e in es {
        listed(e, is_first, sheet)?;
        is_first = false;
    }
    Ok(())
}

/// An expression of a list: the first, or a further one.
#[cycle(expressions)]
fn listed(e: &Expr, is_first: bool, sheet: &mut Sheet) -> Result<(), AllocError>
    ensures { OnOk result (sheet.new ≡ lay (words.listed is_first (view_expr e.now)) sheet.old) }
{
    if is_first {
        return expression(e, Gap::Tight, sheet);
    }
    sheet.word(Gap::Tight, b",")?;
    expression(e, Gap::Spaced, sheet)
}

/// What stands before the operand of a cast.
#[tactic(auto, using(crate::proofs::Laying::lay_both))]
fn cast_type(specs: &[Spec], pointer: bool, gap: Gap, sheet: &mut Sheet) -> Result<(), AllocError>
    ensures { OnOk result (sheet.new ≡ lay (words.cast_words (view_specs specs.now) pointer (view_gap gap)) sheet.old) }
{
    sheet.word(gap, b"(")?;
    specifiers(specs, Gap::Tight, sheet)?;
    if pointer {
        sheet.word(Gap::Spaced, b"*")?;
    }
    sheet.word(Gap::Tight, b")")
}

/// Two operators before an operand stand apart, or `- -` would be `--`.
fn behind_prefix(e: &Expr) -> Gap
    ensures { view_gap result ≡ words.behind_prefix (view_expr e.now) }
{
    match e {
        Expr::Prefix(_, _, _) => Gap::Spaced,
        _ => Gap::Tight,
    }
}
