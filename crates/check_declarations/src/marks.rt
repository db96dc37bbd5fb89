// Attributes, where each may stand, and what they mark.
ghost use Rattle.std.specs.Prelude.{◌≡◌, ◌++◌, OnOk};
ghost use Rattle.check_declarations.specs.Marks.{is_priv, is_unpriv, is_declassify, marks_of, mark_of, attribute_of, may_stand, mark_faults};

use crate::fault::{FaultKind, TypeFault, note_if};
use pt_base::{Listed, Span};
use pt_tree::Word;
use std::alloc::AllocError;

/// The name of an attribute.
#[derive(Clone, Copy)]
pub enum Mark {
    Priv,
    Unpriv,
    Declassify,
    /// Any other name.
    Other,
}

/// An attribute's name with its place.
#[derive(Clone, Copy, Drop)]
pub struct Attribute {
    pub span: Span,
    pub mark: Mark,
}

/// The attributes' names among specifiers, in order.
pub type Attributes = Listed<Attribute>;

/// What a list of specifiers stands before.
#[derive(Clone, Copy)]
pub enum Carrier {
    /// The declaration of a global.
    Global,
    /// The declaration of a local.
    Object,
    /// The declaration of a struct's field.
    Field,
    /// A function or a host.
    Function {
        privileged: bool,
    },
    /// A parameter of a function or a host. `returns` is a pointer whose pointee isn't const, so
    /// that values come back through it.
    Parameter {
        privileged: bool,
        host: bool,
        returns: bool,
    },
    /// A cast, or a declaration without a declarator.
    Nothing,
}

/// The marks of a declaration.
#[derive(Clone, Copy)]
pub struct Marks {
    pub marked: bool,
    pub unpriv: bool,
    pub declassify: bool,
}

/// What the name of an attribute marks.
fn mark_named(name: &[u8]) -> Mark
    ensures { result ≡ mark_of name.now }
{
    if name == b"priv".as_slice() {
        Mark::Priv
    } else if name == b"unpriv".as_slice() {
        Mark::Unpriv
    } else if name == b"declassify".as_slice() {
        Mark::Declassify
    } else {
        Mark::Other
    }
}

/// The attribute of a name.
pub(crate) fn attribute_named(name: &Word) -> Attribute
    ensures { result ≡ attribute_of name.now }
{
    Attribute {
        span: name.span,
        mark: mark_named(name.bytes.as_slice()),
    }
}

/// The marks that stand among attributes.
pub fn marks_among(attributes: &[Attribute]) -> Marks
    ensures { result ≡ marks_of attributes.now }
{
    Marks {
        marked: has_priv(attributes),
        unpriv: has_unpriv(attributes),
        declassify: has_declassify(attributes),
    }
}

/// Whether `priv` is among the attributes.
pub(crate) fn has_priv(attributes: &[Attribute]) -> bool
    ensures { result ≡ (marks_of attributes.now).marked }
{
    attributes.iter().any(|a| is_priv_mark(a.mark))
}

fn has_unpriv(attributes: &[Attribute]) -> bool
    ensures { result ≡ (marks_of attributes.now).unpriv }
{
    attributes.iter().any(|a| is_unpriv_mark(a.mark))
}

fn has_declassify(attributes: &[Attribute]) -> bool
    ensures { result ≡ (marks_of attributes.now).declassify }
{
    attributes.iter().any(|a| is_declassify_mark(a.mark))
}

fn is_priv_mark(mark: Mark) -> bool
    ensures { result ≡ is_priv mark }
{
    matches!(mark, Mark::Priv)
}

fn is_unpriv_mark(mark: Mark) -> bool
    ensures { result ≡ is_unpriv mark }
{
    matches!(mark, Mark::Unpriv)
}

fn is_declassify_mark(mark: Mark) -> bool
    ensures { result ≡ is_declassify mark }
{
    matches!(mark, Mark::Declassify)
}

/// Whether the attribute may stand before this, where `marked` says whether `priv` stands in the
/// same list of specifiers.
fn is_allowed(carrier: Carrier, marked: bool, mark: Mark) -> bool
    ensures { result ≡ may_stand carrier marked mark }
{
    match carrier {
        Carrier::Global => {
            is_priv_mark(mark) || is_unpriv_mark(mark) && !marked || is_declassify_mark(mark)
        }
        Carrier::Object => is_priv_mark(mark) || is_unpriv_mark(mark) && !marked,
        Carrier::Field => is_priv_mark(mark),
        Carrier::Function { privileged } => {
            is_priv_mark(mark) || is_declassify_mark(mark) && privileged
        }
        Carrier::Parameter {
            privileged,
            host,
            returns,
        } => match mark {
            Mark::Priv => true,
            Mark::Unpriv => !(marked || privileged || host),
            Mark::Declassify => privileged && !host && returns,
            Mark::Other => false,
        },
        Carrier::Nothing => false,
    }
}

/// Adds a fault at each attribute that may not stand before this.
pub fn note_attributes(
    faults: &mut Vec<TypeFault>,
    carrier: Carrier,
    attributes: &[Attribute],
) -> Result<(), AllocError>
    ensures { OnOk result (
        faults.new.items ≡ faults.old.items
        ++ mark_faults carrier attributes.now) }
{
    let marked = has_priv(attributes);
    for a in attributes {
        let wrong = !is_allowed(carrier, marked, a.mark);
        note_if(faults, wrong, FaultKind::BadAttribute, a.span)?;
    }
    Ok(())
}
