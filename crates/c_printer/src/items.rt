// Functions and other items of a program.
ghost use Rattle.std.specs.Prelude.{◌≡◌, OnOk, map, option_map};
ghost use Rattle.pt_tree.specs.ProgramTree.{view_param, view_function};
ghost use Rattle.pt_tree.specs.StatementTree.{view_block};
ghost use Rattle.c_printer.specs.Gaps.{view_gap};
ghost use Rattle.c_printer.specs.Sheets.{lay};
ghost use Rattle.c_printer.specs.Items as words;

use crate::gap::Gap;
use crate::sheet::Sheet;
use crate::specifiers::{declarator, specifiers, starred, suffix};
use crate::statements::{block, declaration};
use pt_tree::{Block, Function, Item, ParamDecl, Word};
use std::alloc::AllocError;

impl Sheet {
    ghost use Rattle.std.specs.Prelude.{◌≡◌, OnOk};
    ghost use Rattle.pt_tree.specs.ProgramTree.{view_item};
    ghost use Rattle.c_printer.specs.Sheets.{lay};
    ghost use Rattle.c_printer.specs.Items.{item_words};

    /// Writes an item of a program. Where memory is wanting, a first part of it may stand there.
    /// It takes time in the size of what it writes, and memory for that alone.
    pub fn print_item(&mut self, item: &Item) -> Result<(), AllocError>
        ensures { OnOk result (self.new ≡ lay (item_words (view_item item.now)) self.old) }
    {
        match item {
            Item::Declare(d) => declaration(d, Gap::Line(0), self),
            Item::Function(f) => function(f, self),
        }
    }
}

fn function(f: &Function, sheet: &mut Sheet) -> Result<(), AllocError>
    ensures { OnOk result (sheet.new ≡ lay (words.function_words (view_function f.now)) sheet.old) }
{
    specifiers(&f.specs, function_gap(&f.body), sheet)?;
    declarator(&f.declarator, sheet)?;
    parameters(&f.params, sheet)?;
    body(&f.body, sheet)
}

/// An empty line stands before a function with a body.
fn function_gap(body: &Option<Block>) -> Gap
    ensures { view_gap result ≡ words.function_gap (option_map view_block body.now) }
{
    match body {
        None => Gap::Line(0),
        Some(_) => Gap::Apart,
    }
}

/// The parameters in their parentheses.
#[tactic(auto, using(crate::proofs::Laying::lay_both))]
fn parameters(params: &[ParamDecl], sheet: &mut Sheet) -> Result<(), AllocError>
    ensures { OnOk result (sheet.new ≡ lay (words.parameters (map view_param params.now)) sheet.old) }
{
    sheet.word(Gap::Tight, b"(")?;
    each_parameter(params, sheet)?;
    sheet.word(Gap::Tight, b")")
}

/// Parameters, divided by commas.
#[tactic(auto, using(crate::proofs::Laying::lay_both))]
fn each_parameter(params: &[ParamDecl], sheet: &mut Sheet) -> Result<(), AllocError>
    ensures { OnOk result (sheet.new ≡ lay (words.params_words (map view_param params.now)) sheet.old) }
{
    match params {
        [] => Ok(()),
        [first, rest @ ..] => {
            parameter(first, Gap::Tight, sheet)?;
            more_parameters(rest, sheet)
        }
    }
}

#[tactic(auto, using(crate::proofs::Laying::lay_both))]
fn more_parameters(params: &[ParamDecl], sheet: &mut Sheet) -> Result<(), AllocError>
    ensures { OnOk result (sheet.new ≡ lay (words.more_params (map view_param params.now)) sheet.old) }
{
    for p in params {
        sheet.word(Gap::Tight, b",")?;
        parameter(p, Gap::Spaced, sheet)?;
    }
    Ok(())
}

#[tactic(auto, using(crate::proofs::Laying::lay_both))]
fn parameter(p: &ParamDecl, gap: Gap, sheet: &mut Sheet) -> Result<(), AllocError>
    ensures { OnOk result (sheet.new ≡ lay (words.param_words (view_param p.now) (view_gap gap)) sheet.old) }
{
    specifiers(&p.specs, gap, sheet)?;
    parameter_name(p.pointer, &p.name, sheet)?;
    suffix(p.suffix, sheet)
}

/// A parameter's name, which may be left out.
fn parameter_name(pointer: bool, name: &Option<Word>, sheet: &mut Sheet) -> Result<(), AllocError>
    ensures { OnOk result (sheet.new ≡ lay (words.param_name pointer name.now) sheet.old) }
{
    match name {
        Some(name) => starred(pointer, name, sheet),
        None => {
            if pointer {
                return sheet.word(Gap::Spaced, b"*");
            }
            Ok(())
        }
    }
}

/// The body of a function, or what stands for it.
fn body(body: &Option<Block>, sheet: &mut Sheet) -> Result<(), AllocError>
    ensures { OnOk result (sheet.new ≡ lay (words.body_words (option_map view_block body.now)) sheet.old) }
{
    match body {
        None => sheet.word(Gap::Tight, b";"),
        Some(inner) => block(&inner.items, 0, Gap::Spaced, sheet),
    }
}
