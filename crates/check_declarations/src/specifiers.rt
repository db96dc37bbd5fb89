// What the specifiers of a declaration say (C99 6.7.1 to 6.7.3).
ghost use Rattle.std.specs.Prelude.{◌≡◌, ◌++◌, map, IfOk, OnOk};
ghost use Rattle.pt_tree.specs.SpecifierTree.{view_spec, view_specs};
ghost use Rattle.check_declarations.specs.Gives.{GivesJudged};
ghost use Rattle.check_declarations.specs.Marks.{attribute_of};
ghost use Rattle.check_declarations.specs.Words.{storage_limit};
ghost use Rattle.check_declarations.specs.Specifiers as is;

use crate::bodies::named_types;
use crate::fault::{FaultKind, TypeFault, note_if};
use crate::findings::Findings;
use crate::marks::{Attribute, Attributes, attribute_named};
use crate::words::{has_const_word, has_extern_word, named_type, storage_words};
use pt_base::{Listed, Span};
use pt_tree::{Spec, SpecWord, Word};
use std::alloc::{AllocError, Global};
use type_rules::Type;

/// What the specifiers of a declaration say together.
#[derive(Drop)]
pub struct Specified {
    /// Where the first specifier stands.
    pub first: Span,
    /// The type that they name: an integer type, a struct, void, or Bad.
    pub base: Type,
    /// `const` is among them.
    pub fixed: bool,
    /// `extern` is among them.
    pub external: bool,
    pub attributes: Attributes,
}

/// What a list of specifiers says, which stands at file scope or elsewhere. The structs that it
/// declares come into the table, and its faults to the end of the faults.
pub fn judge_specifiers(
    alloc: Global,
    findings: &mut Findings,
    at_file: bool,
    specs: &[Spec],
) -> Result<Specified, AllocError>
    ensures { GivesJudged result findings.old findings.new (is.specified at_file findings.old.structs (view_specs specs.now)) }
{
    let types = named_types(alloc, findings, at_file, specs)?;
    judged(alloc, at_file, specs, &types, &mut findings.faults)
}

/// What a list of specifiers says, by the types that its struct specifiers name.
pub(crate) fn judged(
    alloc: Global,
    at_file: bool,
    specs: &[Spec],
    types: &[Type],
    faults: &mut Vec<TypeFault>,
) -> Result<Specified, AllocError>
    ensures given { IfOk result (λ given.
        given ≡ is.given_by at_file (view_specs specs.now) types.now) }
    ensures faults { OnOk result (
        faults.new.items ≡ faults.old.items
        ++ is.word_faults at_file (view_specs specs.now) types.now) }
{
    let first = first_of(specs);
    let words = keywords(alloc, specs)?;
    let has_room = storage_words(&words) <= storage_room(at_file);
    let named = named_type(&words, types);
    note_if(faults, !has_room, FaultKind::OutOfProfile, first)?;
    note_if(faults, named.is_none(), FaultKind::OutOfProfile, first)?;
    Ok(Specified {
        first,
        base: base_of(has_room, named),
        fixed: has_const_word(&words),
        external: has_extern_word(&words),
        attributes: Listed::new(attributes(alloc, specs)?),
    })
}

/// The base type, Bad where there are too many storage words or no type is named.
fn base_of(has_room: bool, named: Option<Type>) -> Type
    ensures { result ≡ is.base_of has_room named }
{
    if has_room {
        named.unwrap_or(Type::Bad)
    } else {
        Type::Bad
    }
}

/// How many storage words may stand there.
fn storage_room(at_file: bool) -> usize
    ensures { result ≡ storage_limit at_file }
{
    if at_file { 1 } else { 0 }
}

/// Where the first specifier stands.
pub(crate) fn first_of(specs: &[Spec]) -> Span
    ensures { result ≡ is.first_of (view_specs specs.now) }
{
    match specs {
        [] => Span { from: 0, to: 0 },
        [first, ..] => span_of(first),
    }
}

fn span_of(spec: &Spec) -> Span
    ensures { result ≡ is.span_of (view_spec spec.now) }
{
    match spec {
        Spec::Attribute(span, _) => *span,
        Spec::Keyword(span, _) => *span,
        Spec::Struct(span, _, _) => *span,
    }
}

/// The keywords among the specifiers, in order.
fn keywords(alloc: Global, specs: &[Spec]) -> Result<Vec<SpecWord>, AllocError>
    ensures { IfOk result (λ words. words.items ≡ is.keywords (view_specs specs.now)) }
{
    let mut words = Vec::new(alloc);
    for spec in specs {
        if let Some(word) = keyword_of(spec) {
            words.push(word)?;
        }
    }
    Ok(words)
}

fn keyword_of(spec: &Spec) -> Option<SpecWord>
    ensures { result ≡ is.keyword_of (view_spec spec.now) }
{
    match spec {
        Spec::Attribute(_, _) => None,
        Spec::Keyword(_, word) => Some(*word),
        Spec::Struct(_, _, _) => None,
    }
}

/// The names in an attribute.
fn names_of(spec: &Spec) -> &[Word]
    ensures { result.now ≡ is.names_of (view_spec spec.now) }
{
    match spec {
        Spec::Attribute(_, names) => names.as_slice(),
        Spec::Keyword(_, _) => &[],
        Spec::Struct(_, _, _) => &[],
    }
}

/// The attributes among the specifiers, in order.
pub fn attributes(alloc: Global, specs: &[Spec]) -> Result<Vec<Attribute>, AllocError>
    ensures { IfOk result (λ attributes.
        attributes.items ≡ is.attributes (view_specs specs.now)) }
{
    let mut attributes = Vec::new(alloc);
    for spec in specs {
        add_attributes(&mut attributes, names_of(spec))?;
    }
    Ok(attributes)
}

fn add_attributes(attributes: &mut Vec<Attribute>, names: &[Word]) -> Result<(), AllocError>
    ensures { OnOk result (attributes.new.items
        ≡ attributes.old.items ++ map attribute_of names.now) }
{
    for name in names {
        attributes.push(attribute_named(name))?;
    }
    Ok(())
}
