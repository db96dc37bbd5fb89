// The struct specifiers of a declaration, and the structs that they declare (C99 6.7.2.1, 6.7.2.3).
ghost use Rattle.std.specs.Prelude.{◌≡◌, ◌++◌, [], ◌∷◌, OnOk};
ghost use Rattle.pt_tree.specs.SpecifierTree.{view_spec, view_specs, view_field};
ghost use Rattle.check_declarations.specs.Gives.{GivesBody, GivesNamed, GivesNaming, Reaches};
ghost use Rattle.check_declarations.specs.Specifiers as is;

use crate::fault::{FaultKind, note_if};
use crate::fields::add_fields;
use crate::findings::Findings;
use crate::marks::{Carrier, note_attributes};
use crate::name_table::NameTable;
use crate::specifiers::{first_of, judged};
use crate::structs::{Fields, declare_struct, struct_named};
use pt_base::Span;
use pt_tree::{FieldDecl, Spec, Word};
use std::alloc::{AllocError, Global};
use type_rules::Type;

/// The types that the struct specifiers of a list name, in order. Those with a body declare structs.
#[cycle(bodies)]
pub(crate) fn named_types(
    alloc: Global,
    findings: &mut Findings,
    at_file: bool,
    specs: &[Spec],
) -> Result<Vec<Type>, AllocError>
    ensures { GivesNaming result findings.old findings.new (is.named_types at_file findings.old.structs (view_specs specs.now)) }
{
    let first = first_of(specs);
    let mut types = Vec::new(alloc);
    for spec in specs {
        add_named(alloc, findings, at_file, first, spec, &mut types)?;
    }
    Ok(types)
}

/// Adds the type that a specifier names, where it is a struct specifier.
#[cycle(bodies)]
fn add_named(
    alloc: Global,
    findings: &mut Findings,
    at_file: bool,
    first: Span,
    spec: &Spec,
    types: &mut Vec<Type>,
) -> Result<(), AllocError>
    ensures { let n = is.named_by at_file first findings.old.structs (view_spec spec.now) in OnOk result ((types.new.items ≡ types.old.items ++ n.types) × Reaches findings.old findings.new n.structs n.faults) }
{
    match spec {
        Spec::Attribute(_, _) => {}
        Spec::Keyword(_, _) => {}
        Spec::Struct(_, tag, body) => {
            let ty = structure(alloc, findings, at_file, first, tag, body)?;
            types.push(ty)?;
        }
    }
    Ok(())
}

/// The type that a struct specifier names. Without a body, it is the struct of its tag, and Bad
/// where none is declared; with one, the struct that it declares, but Bad where bodies can't stand.
#[cycle(bodies)]
fn structure(
    alloc: Global,
    findings: &mut Findings,
    at_file: bool,
    first: Span,
    tag: &Word,
    body: &[FieldDecl],
) -> Result<Type, AllocError>
    ensures { GivesNamed result findings.old findings.new (is.named_struct at_file first findings.old.structs tag.now body.now) }
{
    if body.is_empty() {
        return refer(findings, tag);
    }
    let fields = fields_of(alloc, findings, body)?;
    define(alloc, findings, at_file, first, tag, fields)
}

/// The fields of a struct's body.
#[cycle(bodies)]
fn fields_of(
    alloc: Global,
    findings: &mut Findings,
    body: &[FieldDecl],
) -> Result<Fields, AllocError>
    ensures { GivesBody result findings.old findings.new (is.body_of findings.old.structs [] (is.view_body body.now)) }
{
    let mut fields = NameTable::new(alloc);
    for declaration in body {
        add_declaration(alloc, findings, &mut fields, declaration)?;
    }
    Ok(fields)
}

/// Adds the fields of one declaration, whose specifiers don't stand at file scope.
#[cycle(bodies)]
fn add_declaration(
    alloc: Global,
    findings: &mut Findings,
    fields: &mut Fields,
    declaration: &FieldDecl,
) -> Result<(), AllocError>
    ensures { let b = is.with_field findings.old.structs fields.old (view_field declaration.now) in OnOk result ((fields.new ≡ b.fields) × Reaches findings.old findings.new b.structs b.faults) }
{
    let types = named_types(alloc, findings, false, &declaration.specs)?;
    let faults = &mut findings.faults;
    let given = judged(alloc, false, &declaration.specs, &types, faults)?;
    note_attributes(faults, Carrier::Field, given.attributes.as_slice())?;
    add_fields(
        alloc,
        &findings.structs,
        &given,
        fields,
        &declaration.declarators,
        faults,
    )
}

/// The type of the struct with this tag; a fault at the tag where none is declared.
fn refer(findings: &mut Findings, tag: &Word) -> Result<Type, AllocError>
    ensures { GivesNamed result findings.old findings.new (is.referred findings.old.structs tag.now) }
{
    let ty = struct_named(&findings.structs, tag.bytes.as_slice());
    let unknown = findings.structs.number_of(tag.bytes.as_slice()).is_none();
    note_if(
        &mut findings.faults,
        unknown,
        FaultKind::UnknownName,
        tag.span,
    )?;
    Ok(ty)
}

/// Declares the struct of a body at its closing brace, and gives the type that its specifier names.
#[tactic(auto, unfolding(crate::specs::Specifiers::defined))]
fn define(
    alloc: Global,
    findings: &mut Findings,
    at_file: bool,
    first: Span,
    tag: &Word,
    fields: Fields,
) -> Result<Type, AllocError>
    ensures { GivesNamed result findings.old findings.new (is.defined at_file first tag.now findings.old.structs fields) }
{
    let is_empty = fields.count() == 0;
    let is_new = declare_struct(alloc, &mut findings.structs, tag.bytes.as_slice(), fields)?;
    let faults = &mut findings.faults;
    note_if(faults, !is_new, FaultKind::Redeclared, tag.span)?;
    note_if(faults, !at_file || is_empty, FaultKind::OutOfProfile, first)?;
    Ok(if at_file {
        struct_named(&findings.structs, tag.bytes.as_slice())
    } else {
        Type::Bad
    })
}
