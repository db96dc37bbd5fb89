// The structs of the typed tree.
ghost use Rattle.std.specs.Prelude.{◌≡◌, map, option_map, slice_get, IfOk};
ghost use Rattle.check_expressions.specs.StructInfos as is;

use crate::entries::object_type_of;
use check_declarations::{FieldEntry, Fields, StructEntry, Structs};
use pt_base::{Bytes, Listed};
use std::alloc::{AllocError, Global};
use typed_tree::{Field, StructInfo};

/// A field in the typed tree.
fn field_info(alloc: Global, name: &[u8], entry: &FieldEntry) -> Result<Field, AllocError>
    ensures { IfOk result (λ f. f ≡ is.field_info (name.now, entry.now)) }
{
    Ok(Field {
        name: Bytes::new(Vec::from_slice(alloc, name)?),
        ty: object_type_of(entry.ty),
        marked: entry.marked,
    })
}

/// The field of this number, where there is one.
fn field_at(alloc: Global, fields: &Fields, number: u32) -> Result<Option<Field>, AllocError>
    ensures { IfOk result (λ f. f ≡ option_map is.field_info (slice_get fields.now number)) }
{
    let Some(name) = fields.name(number) else {
        return Ok(None);
    };
    let Some(entry) = fields.get(number) else {
        return Ok(None);
    };
    Ok(Some(field_info(alloc, name, entry)?))
}

/// The fields of a struct in the typed tree.
fn field_infos(alloc: Global, fields: &Fields) -> Result<Vec<Field>, AllocError>
    ensures { IfOk result (λ fs. fs.items ≡ map is.field_info fields.now) }
{
    let mut infos = Vec::new(alloc);
    for number in 0..fields.count() {
        match field_at(alloc, fields, number)? {
            Some(info) => infos.push(info)?,
            None => {}
        }
    }
    Ok(infos)
}

/// A struct in the typed tree.
fn struct_info(alloc: Global, name: &[u8], entry: &StructEntry) -> Result<StructInfo, AllocError>
    ensures { IfOk result (λ s. s ≡ is.struct_info (name.now, entry.now)) }
{
    Ok(StructInfo {
        name: Bytes::new(Vec::from_slice(alloc, name)?),
        fields: Listed::new(field_infos(alloc, &entry.fields)?),
    })
}

/// The struct of this number, where there is one.
fn struct_at(
    alloc: Global,
    structs: &Structs,
    number: u32,
) -> Result<Option<StructInfo>, AllocError>
    ensures { IfOk result (λ s. s ≡ option_map is.struct_info (slice_get structs.now number)) }
{
    let Some(name) = structs.name(number) else {
        return Ok(None);
    };
    let Some(entry) = structs.get(number) else {
        return Ok(None);
    };
    Ok(Some(struct_info(alloc, name, entry)?))
}

/// The structs of the typed tree.
pub(crate) fn struct_infos(alloc: Global, structs: &Structs) -> Result<Vec<StructInfo>, AllocError>
    ensures { IfOk result (λ ss. ss.items ≡ map is.struct_info structs.now) }
{
    let mut infos = Vec::new(alloc);
    for number in 0..structs.count() {
        match struct_at(alloc, structs, number)? {
            Some(info) => infos.push(info)?,
            None => {}
        }
    }
    Ok(infos)
}
