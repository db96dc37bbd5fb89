// The declarators of a field declaration, each of which adds a field to its struct (C99 6.7.2.1).
ghost use Rattle.std.specs.Prelude.{◌≡◌, ◌++◌, OnOk};
ghost use Rattle.check_declarations.specs.NameTables.{with_name};
ghost use Rattle.check_declarations.specs.Fields as is;

use crate::fault::{FaultKind, TypeFault, note_if};
use crate::marks::has_priv;
use crate::objects::{ObjectKind, is_fixed, note_object, note_size, object_type};
use crate::specifiers::Specified;
use crate::structs::{FieldEntry, Fields, Structs};
use pt_tree::Declarator;
use std::alloc::{AllocError, Global};

/// The field of a declarator.
fn field_of(given: &Specified, declarator: &Declarator) -> FieldEntry
    ensures { result ≡ is.field_of given.now declarator.now }
{
    let kind = ObjectKind::Field;
    let pointer = declarator.pointer;
    let suffix = declarator.suffix;
    FieldEntry {
        ty: object_type(kind, given, pointer, suffix),
        fixed: is_fixed(kind, given, pointer, suffix),
        marked: has_priv(given.attributes.as_slice()),
    }
}

/// Adds the field of a declarator, unless the struct has one of that name, and its faults.
fn add_field(
    alloc: Global,
    structs: &Structs,
    given: &Specified,
    fields: &mut Fields,
    declarator: &Declarator,
    faults: &mut Vec<TypeFault>,
) -> Result<(), AllocError>
    ensures fields { OnOk result (fields.new
        ≡ with_name fields.old declarator.now.name.bytes (is.field_of given.now declarator.now)) }
    ensures faults { OnOk result (
        faults.new.items ≡ faults.old.items
        ++ is.field_faults structs.now given.now fields.old declarator.now) }
{
    let at = declarator.name.span;
    let entry = field_of(given, declarator);
    let kind = ObjectKind::Field;
    note_object(
        faults,
        kind,
        given,
        declarator.pointer,
        declarator.suffix,
        at,
    )?;
    note_size(faults, structs, entry.ty, at)?;
    let is_new = fields.add(alloc, declarator.name.bytes.as_slice(), entry)?;
    note_if(faults, !is_new, FaultKind::Redeclared, at)
}

/// The same of declarators in a row.
pub(crate) fn add_fields(
    alloc: Global,
    structs: &Structs,
    given: &Specified,
    fields: &mut Fields,
    declarators: &[Declarator],
    faults: &mut Vec<TypeFault>,
) -> Result<(), AllocError>
    ensures fields { OnOk result (
        fields.new ≡ (is.declared structs.now given.now fields.old declarators.now).fields) }
    ensures faults { OnOk result (
        faults.new.items ≡ faults.old.items
        ++ (is.declared structs.now given.now fields.old declarators.now).faults) }
{
    for declarator in declarators {
        add_field(alloc, structs, given, fields, declarator, faults)?;
    }
    Ok(())
}
