// Declarations and statements. A statement stands so many levels in.
ghost use Rattle.std.specs.Prelude.{◌≡◌, ◌≤◌, OnOk, map, option_map, Some};
ghost use Rattle.pt_tree.specs.ExpressionTree.{view_expr, expr_trees};
ghost use Rattle.pt_tree.specs.StatementTree.{view_init, view_init_declarator, view_declaration, view_label, view_for_init, view_stmt, view_section, stmt_trees, section_trees};
ghost use Rattle.c_printer.specs.Gaps.{view_gap};
ghost use Rattle.c_printer.specs.Sheets.{laid, lay};
ghost use Rattle.c_printer.specs.Statements as words;

use crate::expressions::{expression, expressions};
use crate::gap::Gap;
use crate::sheet::Sheet;
use crate::specifiers::{declarator, specifiers};
use pt_tree::{Declaration, Expr, ForInit, InitDeclarator, Initializer, Label, Section, Stmt};
use std::alloc::AllocError;

/// A statement.
#[cycle(statements)]
#[tactic(auto, using(crate::proofs::Laying::lay_both))]
fn statement(s: &Stmt, level: usize, gap: Gap, sheet: &mut Sheet) -> Result<(), AllocError>
    requires { level ≤ 20 }
    ensures { OnOk result (sheet.new ≡ lay (words.statement (view_stmt s.now) level (view_gap gap)) sheet.old) }
{
    match s {
        Stmt::Declare(d) => declaration(d, gap, sheet),
        Stmt::Block(inner) => block(&inner.items, level, gap, sheet),
        Stmt::Empty(_) => sheet.word(gap, b";"),
        Stmt::Expr(_, e) => {
            expression(e, gap, sheet)?;
            sheet.word(Gap::Tight, b";")
        }
        Stmt::If(_, test, yes, no) => {
            headed(b"if", test, gap, sheet)?;
            branch(yes, level, sheet)?;
            match no {
                None => Ok(()),
                Some(no) => {
                    sheet.word(Gap::Spaced, b"else")?;
                    branch(no, level, sheet)
                }
            }
        }
        Stmt::While(_, test, body) => {
            headed(b"while", test, gap, sheet)?;
            branch(body, level, sheet)
        }
        Stmt::Do(_, body, test) => {
            sheet.word(gap, b"do")?;
            branch(body, level, sheet)?;
            headed(b"while", test, Gap::Spaced, sheet)?;
            sheet.word(Gap::Tight, b";")
        }
        Stmt::For(_, init, test, step, body) => {
            for_head(init, test, step, gap, sheet)?;
            branch(body, level, sheet)
        }
        Stmt::Return(_, value) => {
            sheet.word(gap, b"return")?;
            maybe(value, Gap::Spaced, sheet)?;
            sheet.word(Gap::Tight, b";")
        }
        Stmt::Break(_) => {
            sheet.word(gap, b"break")?;
            sheet.word(Gap::Tight, b";")
        }
        Stmt::Continue(_) => {
            sheet.word(gap, b"continue")?;
            sheet.word(Gap::Tight, b";")
        }
        Stmt::Switch(_, on, parts) => {
            headed(b"switch", on, gap, sheet)?;
            sections(parts, level, sheet)
        }
    }
}

/// What hangs on a condition: a block stands on the condition's line, anything else on its own.
#[cycle(statements)]
fn branch(s: &Stmt, level: usize, sheet: &mut Sheet) -> Result<(), AllocError>
    requires { level ≤ 20 }
    ensures { OnOk result (sheet.new ≡ lay (words.branch (view_stmt s.now) (words.statement (view_stmt s.now)) level) sheet.old) }
{
    if is_block(s) {
        return statement(s, level, Gap::Spaced, sheet);
    }
    let level = deeper(level);
    statement(s, level, Gap::Line(level), sheet)
}

/// Statements in braces.
#[cycle(statements)]
#[tactic(auto, using(crate::proofs::Laying::lay_both))]
pub(crate) fn block(
    items: &[Stmt],
    level: usize,
    gap: Gap,
    sheet: &mut Sheet,
) -> Result<(), AllocError>
    requires { level ≤ 20 }
    ensures { OnOk result (sheet.new ≡ lay (words.block_words (stmt_trees (map view_stmt items.now)) level (view_gap gap)) sheet.old) }
{
    sheet.word(gap, b"{")?;
    statements(items, deeper(level), sheet)?;
    sheet.word(Gap::Line(level), b"}")
}

/// Statements, each on a line.
#[cycle(statements)]
fn statements(items: &[Stmt], level: usize, sheet: &mut Sheet) -> Result<(), AllocError>
    requires { level ≤ 20 }
    ensures { OnOk result (sheet.new ≡ lay (words.statements (stmt_trees (map view_stmt items.now)) level) sheet.old) }
{
    for s in items {
        statement(s, level, Gap::Line(level), sheet)?;
    }
    Ok(())
}

/// The braces of a switch.
#[cycle(statements)]
#[tactic(auto, using(crate::proofs::Laying::lay_both))]
fn sections(parts: &[Section], level: usize, sheet: &mut Sheet) -> Result<(), AllocError>
    requires { level ≤ 20 }
    ensures { OnOk result (sheet.new ≡ lay (words.switch_words (section_trees (map view_section parts.now)) level) sheet.old) }
{
    sheet.word(Gap::Spaced, b"{")?;
    each_section(parts, level, sheet)?;
    sheet.word(Gap::Line(level), b"}")
}

#[cycle(statements)]
fn each_section(parts: &[Section], level: usize, sheet: &mut Sheet) -> Result<(), AllocError>
    requires { level ≤ 20 }
    ensures { OnOk result (sheet.new ≡ lay (words.section_list (section_trees (map view_section parts.now)) level) sheet.old) }
{
    for part in parts {
        section(part, level, sheet)?;
    }
    Ok(())
}

/// A label and the statements behind it.
#[cycle(statements)]
#[tactic(auto, using(crate::proofs::Laying::lay_both))]
fn section(part: &Section, level: usize, sheet: &mut Sheet) -> Result<(), AllocError>
    requires { level ≤ 20 }
    ensures { OnOk result (sheet.new ≡ lay (words.section_words (view_section part.now) level) sheet.old) }
{
    label(&part.label, level, sheet)?;
    statements(&part.statements, deeper(level), sheet)
}

/// A declaration.
#[tactic(auto, using(crate::proofs::Laying::lay_both))]
pub(crate) fn declaration(d: &Declaration, gap: Gap, sheet: &mut Sheet) -> Result<(), AllocError>
    ensures { OnOk result (sheet.new ≡ lay (words.declaration (view_declaration d.now) (view_gap gap)) sheet.old) }
{
    specifiers(&d.specs, gap, sheet)?;
    init_declarators(&d.declarators, sheet)?;
    sheet.word(Gap::Tight, b";")
}

/// Declarators with their values, divided by commas.
#[tactic(auto, using(crate::proofs::Laying::lay_both))]
fn init_declarators(ds: &[InitDeclarator], sheet: &mut Sheet) -> Result<(), AllocError>
    ensures { OnOk result (sheet.new ≡ lay (words.init_declarators (map view_init_declarator ds.now)) sheet.old) }
{
    match ds {
        [] => Ok(()),
        [first, rest @ ..] => {
            init_declarator(first, sheet)?;
            more_init_declarators(rest, sheet)
        }
    }
}

#[tactic(auto, using(crate::proofs::Laying::lay_both))]
fn more_init_declarators(ds: &[InitDeclarator], sheet: &mut Sheet) -> Result<(), AllocError>
    ensures { OnOk result (sheet.new ≡ lay (words.more_init_declarators (map view_init_declarator ds.now)) sheet.old) }
{
    for d in ds {
        sheet.word(Gap::Tight, b",")?;
        init_declarator(d, sheet)?;
    }
    Ok(())
}

#[tactic(auto, using(crate::proofs::Laying::lay_both))]
fn init_declarator(d: &InitDeclarator, sheet: &mut Sheet) -> Result<(), AllocError>
    ensures { OnOk result (sheet.new ≡ lay (words.init_declarator (view_init_declarator d.now)) sheet.old) }
{
    declarator(&d.declarator, sheet)?;
    match &d.init {
        None => Ok(()),
        Some(init) => initialiser(init, sheet),
    }
}

/// The value of a declared object.
#[tactic(auto, using(crate::proofs::Laying::lay_both))]
fn initialiser(init: &Initializer, sheet: &mut Sheet) -> Result<(), AllocError>
    ensures { OnOk result (sheet.new ≡ lay (words.initialiser (view_init (Some init.now))) sheet.old) }
{
    sheet.word(Gap::Spaced, b"=")?;
    match init {
        Initializer::Single(e) => expression(e, Gap::Spaced, sheet),
        Initializer::Braces(_, items) => {
            sheet.word(Gap::Spaced, b"{")?;
            expressions(items, sheet)?;
            sheet.word(Gap::Tight, b"}")
        }
    }
}

/// A keyword and the condition behind it.
#[tactic(auto, using(crate::proofs::Laying::lay_both))]
fn headed(word: &[u8], test: &Expr, gap: Gap, sheet: &mut Sheet) -> Result<(), AllocError>
    ensures { OnOk result (sheet.new ≡ lay (words.condition (view_expr test.now)) (laid (view_gap gap) word.now sheet.old)) }
{
    sheet.word(gap, word)?;
    sheet.word(Gap::Spaced, b"(")?;
    expression(test, Gap::Tight, sheet)?;
    sheet.word(Gap::Tight, b")")
}

/// `for` and its parentheses.
#[tactic(auto, using(crate::proofs::Laying::lay_both))]
fn for_head(
    init: &ForInit,
    test: &Option<Expr>,
    step: &Option<Expr>,
    gap: Gap,
    sheet: &mut Sheet,
) -> Result<(), AllocError>
    ensures { OnOk result (sheet.new ≡ lay (words.for_words (view_for_init init.now) (option_map view_expr test.now) (option_map view_expr step.now) (view_gap gap)) sheet.old) }
{
    sheet.word(gap, b"for")?;
    sheet.word(Gap::Spaced, b"(")?;
    for_init(init, sheet)?;
    maybe(test, Gap::Spaced, sheet)?;
    sheet.word(Gap::Tight, b";")?;
    maybe(step, Gap::Spaced, sheet)?;
    sheet.word(Gap::Tight, b")")
}

#[tactic(auto, using(crate::proofs::Laying::lay_both))]
fn for_init(init: &ForInit, sheet: &mut Sheet) -> Result<(), AllocError>
    ensures { OnOk result (sheet.new ≡ lay (words.for_init (view_for_init init.now)) sheet.old) }
{
    match init {
        ForInit::Declare(d) => declaration(d, Gap::Tight, sheet),
        ForInit::Nothing => sheet.word(Gap::Tight, b";"),
        ForInit::Expr(e) => {
            expression(e, Gap::Tight, sheet)?;
            sheet.word(Gap::Tight, b";")
        }
    }
}

/// An expression that may be left out.
fn maybe(e: &Option<Expr>, gap: Gap, sheet: &mut Sheet) -> Result<(), AllocError>
    ensures { OnOk result (sheet.new ≡ lay (words.maybe (option_map view_expr e.now) (view_gap gap)) sheet.old) }
{
    match e {
        None => Ok(()),
        Some(e) => expression(e, gap, sheet),
    }
}

/// A label of a switch, on a line of its own.
#[tactic(auto, using(crate::proofs::Laying::lay_both))]
fn label(label: &Label, level: usize, sheet: &mut Sheet) -> Result<(), AllocError>
    ensures { OnOk result (sheet.new ≡ lay (words.label_words (view_label label.now) level) sheet.old) }
{
    match label {
        Label::Case(_, e) => {
            sheet.word(Gap::Line(level), b"case")?;
            expression(e, Gap::Spaced, sheet)?;
            sheet.word(Gap::Tight, b":")
        }
        Label::Default(_) => {
            sheet.word(Gap::Line(level), b"default")?;
            sheet.word(Gap::Tight, b":")
        }
    }
}

fn is_block(s: &Stmt) -> bool
    ensures { result ≡ words.is_block (view_stmt s.now) }
{
    match s {
        Stmt::Block(_) => true,
        _ => false,
    }
}

/// One level further in.
fn deeper(level: usize) -> usize
    requires { level ≤ 20 }
    ensures is { result ≡ words.deeper level }
    ensures few { result ≤ 20 }
{
    if level < 20 { level + 1 } else { 20 }
}
