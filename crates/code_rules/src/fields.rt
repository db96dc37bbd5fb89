// The fields of objects.
ghost use Rattle.std.specs.Prelude.{◌≡◌, option_map, slice_get};
ghost use Rattle.code_rules.specs.Parts as is;

use typed_tree::{Field, StructInfo, VarTy, fields_of};

/// The type of the object to which a path of fields leads from an object of this type; None where
/// a number in it is no field's.
pub(crate) fn along(structs: &[StructInfo], whole: Option<VarTy>, path: &[u32]) -> Option<VarTy>
    ensures { result ≡ is.along structs.now whole path.now }
{
    let mut ty = whole?;
    for field in path {
        ty = field_type(structs, ty, *field)?;
    }
    Some(ty)
}

// The type of a field of an object of this type.
fn field_type(structs: &[StructInfo], ty: VarTy, field: u32) -> Option<VarTy>
    ensures { result ≡ is.field_in structs.now ty field }
{
    match ty {
        VarTy::Struct(structure) => type_of_field(fields_of(structs, structure), field),
        VarTy::Int(_) | VarTy::Array { .. } | VarTy::Pointer { .. } => None,
    }
}

// The type of the field of this number.
fn type_of_field(fields: &[Field], field: u32) -> Option<VarTy>
    ensures { result ≡ option_map (λ f. f.ty) (slice_get fields.now field) }
{
    let found = fields.get(field as usize)?;
    Some(found.ty)
}
