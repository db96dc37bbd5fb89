// Specifiers and declarators.
ghost use Rattle.std.specs.Prelude.{◌≡◌, OnOk, map};
ghost use Rattle.pt_tree.specs.SpecifierTree.{view_spec, view_specs, view_field, field_trees};
ghost use Rattle.c_printer.specs.Gaps.{view_gap};
ghost use Rattle.c_printer.specs.Sheets.{lay};
ghost use Rattle.c_printer.specs.Specifiers as words;

use crate::gap::Gap;
use crate::sheet::Sheet;
use crate::spelling::keyword_word;
use pt_tree::{Declarator, FieldDecl, Spec, Suffix, Word};
use std::alloc::AllocError;

/// Specifiers, each behind a space but the first.
#[cycle(specifiers)]
pub(crate) fn specifiers(specs: &[Spec], gap: Gap, sheet: &mut Sheet) -> Result<(), AllocError>
    ensures { OnOk result (sheet.new ≡ lay (words.specifiers (view_specs specs.now) (view_gap gap)) sheet.old) }
{
    let mut gap = gap;
    for spec in specs {
        specifier(spec, gap, sheet)?;
        gap = Gap::Spaced;
    }
    Ok(())
}

#[cycle(specifiers)]
fn specifier(spec: &Spec, gap: Gap, sheet: &mut Sheet) -> Result<(), AllocError>
    ensures { OnOk result (sheet.new ≡ lay (words.spec_words (view_spec spec.now) (view_gap gap)) sheet.old) }
{
    match spec {
        Spec::Attribute(_, attributes) => attribute(attributes, gap, sheet),
        Spec::Keyword(_, word) => sheet.word(gap, keyword_word(*word)),
        Spec::Struct(_, tag, fields) => structure(fields, tag, gap, sheet),
    }
}

/// A struct with its body, where it has one.
#[cycle(specifiers)]
fn structure(
    fields: &[FieldDecl],
    tag: &Word,
    gap: Gap,
    sheet: &mut Sheet,
) -> Result<(), AllocError>
    ensures { OnOk result (sheet.new ≡ lay (words.structure_words tag.now.bytes (field_trees (map view_field fields.now)) (view_gap gap)) sheet.old) }
{
    sheet.word(gap, b"struct")?;
    sheet.word(Gap::Spaced, tag.bytes.as_slice())?;
    struct_body(fields, sheet)
}

/// The body of a struct, with a line for each field; nothing where there are no fields.
#[cycle(specifiers)]
fn struct_body(fields: &[FieldDecl], sheet: &mut Sheet) -> Result<(), AllocError>
    ensures { OnOk result (sheet.new ≡ lay (words.struct_body (field_trees (map view_field fields.now))) sheet.old) }
{
    match fields {
        [] => Ok(()),
        [_, ..] => {
            sheet.word(Gap::Spaced, b"{")?;
            each_field(fields, sheet)?;
            sheet.word(Gap::Line(0), b"}")
        }
    }
}

#[cycle(specifiers)]
fn each_field(fields: &[FieldDecl], sheet: &mut Sheet) -> Result<(), AllocError>
    ensures { OnOk result (sheet.new ≡ lay (words.more_fields (field_trees (map view_field fields.now))) sheet.old) }
{
    for f in fields {
        field(f, sheet)?;
    }
    Ok(())
}

#[cycle(specifiers)]
fn field(field: &FieldDecl, sheet: &mut Sheet) -> Result<(), AllocError>
    ensures { OnOk result (sheet.new ≡ lay (words.field_words (view_field field.now)) sheet.old) }
{
    specifiers(&field.specs, Gap::Line(1), sheet)?;
    declarators(&field.declarators, sheet)?;
    sheet.word(Gap::Tight, b";")
}

/// `__attribute__((..))`
#[tactic(auto, using(crate::proofs::Laying::lay_both))]
fn attribute(attributes: &[Word], gap: Gap, sheet: &mut Sheet) -> Result<(), AllocError>
    ensures { OnOk result (sheet.new ≡ lay (words.attribute_words attributes.now (view_gap gap)) sheet.old) }
{
    sheet.word(gap, b"__attribute__")?;
    sheet.word(Gap::Tight, b"(")?;
    sheet.word(Gap::Tight, b"(")?;
    names(attributes, sheet)?;
    sheet.word(Gap::Tight, b")")?;
    sheet.word(Gap::Tight, b")")
}

/// Names, divided by commas.
fn names(names: &[Word], sheet: &mut Sheet) -> Result<(), AllocError>
    ensures { OnOk result (sheet.new ≡ lay (words.names names.now) sheet.old) }
{
    match names {
        [] => Ok(()),
        [first, rest @ ..] => {
            sheet.word(Gap::Tight, first.bytes.as_slice())?;
            more_names(rest, sheet)
        }
    }
}

fn more_names(names: &[Word], sheet: &mut Sheet) -> Result<(), AllocError>
    ensures { OnOk result (sheet.new ≡ lay (words.more_names names.now) sheet.old) }
{
    for name in names {
        sheet.word(Gap::Tight, b",")?;
        sheet.word(Gap::Spaced, name.bytes.as_slice())?;
    }
    Ok(())
}

/// What stands behind a declared name.
pub(crate) fn suffix(suffix: Suffix, sheet: &mut Sheet) -> Result<(), AllocError>
    ensures { OnOk result (sheet.new ≡ lay (words.suffix_words suffix) sheet.old) }
{
    match suffix {
        Suffix::Plain => Ok(()),
        Suffix::Open => {
            sheet.word(Gap::Tight, b"[")?;
            sheet.word(Gap::Tight, b"]")
        }
        Suffix::Sized(size) => {
            sheet.word(Gap::Tight, b"[")?;
            sheet.constant(Gap::Tight, size)?;
            sheet.word(Gap::Tight, b"]")
        }
    }
}

/// A declared name, with the star that belongs to it.
pub(crate) fn starred(pointer: bool, name: &Word, sheet: &mut Sheet) -> Result<(), AllocError>
    ensures { OnOk result (sheet.new ≡ lay (words.starred pointer name.now.bytes) sheet.old) }
{
    if pointer {
        sheet.word(Gap::Spaced, b"*")?;
        sheet.word(Gap::Tight, name.bytes.as_slice())
    } else {
        sheet.word(Gap::Spaced, name.bytes.as_slice())
    }
}

#[tactic(auto, using(crate::proofs::Laying::lay_both))]
pub(crate) fn declarator(declarator: &Declarator, sheet: &mut Sheet) -> Result<(), AllocError>
    ensures { OnOk result (sheet.new ≡ lay (words.declarator_words declarator.now) sheet.old) }
{
    starred(declarator.pointer, &declarator.name, sheet)?;
    suffix(declarator.suffix, sheet)
}

/// Declarators, divided by commas.
#[tactic(auto, using(crate::proofs::Laying::lay_both))]
fn declarators(declarators: &[Declarator], sheet: &mut Sheet) -> Result<(), AllocError>
    ensures { OnOk result (sheet.new ≡ lay (words.declarators declarators.now) sheet.old) }
{
    match declarators {
        [] => Ok(()),
        [first, rest @ ..] => {
            declarator(first, sheet)?;
            more_declarators(rest, sheet)
        }
    }
}

fn more_declarators(declarators: &[Declarator], sheet: &mut Sheet) -> Result<(), AllocError>
    ensures { OnOk result (sheet.new ≡ lay (words.more_declarators declarators.now) sheet.old) }
{
    for d in declarators {
        sheet.word(Gap::Tight, b",")?;
        declarator(d, sheet)?;
    }
    Ok(())
}
