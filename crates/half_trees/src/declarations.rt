// Declared objects and the fields of structs.
ghost use Rattle.std.specs.Prelude.{◌≡◌, ◌++◌, IfOk, map, false};
ghost use Rattle.pt_tree.specs.SpecifierTree.{view_field};
ghost use Rattle.pt_tree.specs.StatementTree.{view_declaration, view_init};
ghost use Rattle.typed_tree.specs.Sizes as sizes;
ghost use Rattle.half_trees.specs.Declarations as declared;

use crate::names::{NOWHERE, field_name, word};
use crate::specifiers::{Marks, object_specs};
use pt_base::IntType;
use pt_tree::{Constant, Declaration, Declarator, FieldDecl, InitDeclarator, Initializer, Suffix};
use std::alloc::{AllocError, Global};
use typed_tree::{Field, StructInfo, VarTy};

/// Whether it is a pointer's.
pub(crate) fn is_pointer(ty: VarTy) -> bool
    ensures { result ≡ declared.is_pointer ty }
{
    matches!(ty, VarTy::Pointer { .. })
}

// What stands behind the name of an object of this type.
fn suffix_of(ty: VarTy) -> Suffix
    ensures { result ≡ declared.suffix_of ty }
{
    match ty {
        VarTy::Array { count, .. } => Suffix::Sized(Constant {
            span: NOWHERE,
            value: i128::from(count),
            ty: IntType::Int,
        }),
        VarTy::Int(_) | VarTy::Struct(_) | VarTy::Pointer { .. } => Suffix::Plain,
    }
}

// A name with what stands round it where it is declared as of this type.
fn declarator_of(ty: VarTy, name: Vec<u8>) -> Declarator
    ensures { result ≡ declared.declarator_of ty name.items }
{
    Declarator {
        span: NOWHERE,
        pointer: is_pointer(ty),
        name: word(name),
        suffix: suffix_of(ty),
    }
}

/// The declaration of an object.
pub(crate) fn object(
    alloc: Global,
    structs: &[StructInfo],
    marks: Marks,
    ty: VarTy,
    name: Vec<u8>,
    init: Option<Initializer>,
) -> Result<Declaration, AllocError>
    ensures { IfOk result (λ d. view_declaration d ≡ declared.object structs.now (declared.mark_specs marks.private marks.unpriv marks.declassify) ty name.items (view_init init)) }
{
    let specs = object_specs(alloc, structs, marks, ty)?;
    let mut declarators = Vec::new(alloc);
    declarators.push(InitDeclarator {
        declarator: declarator_of(ty, name),
        init,
    })?;
    Ok(Declaration {
        span: NOWHERE,
        specs,
        declarators,
    })
}

/// The fields of a struct, none where there is none of this number.
pub(crate) fn fields_of(structs: &[StructInfo], n: usize) -> &[Field]
    ensures { result.now ≡ sizes.fields_of structs.now n }
{
    match structs.get(n) {
        Some(info) => info.fields.as_slice(),
        None => &[],
    }
}

// A field as it is declared.
fn field_tree(
    alloc: Global,
    structs: &[StructInfo],
    name: Vec<u8>,
    field: &Field,
) -> Result<FieldDecl, AllocError>
    ensures { IfOk result (λ f. view_field f ≡ declared.field_tree structs.now name.items field.now) }
{
    let marks = Marks {
        private: field.marked,
        unpriv: false,
        declassify: false,
    };
    let specs = object_specs(alloc, structs, marks, field.ty)?;
    let mut declarators = Vec::new(alloc);
    declarators.push(declarator_of(field.ty, name))?;
    Ok(FieldDecl {
        span: NOWHERE,
        specs,
        declarators,
    })
}

/// The fields as they are declared.
pub(crate) fn field_trees(
    alloc: Global,
    structs: &[StructInfo],
    fields: &[Field],
) -> Result<Vec<FieldDecl>, AllocError>
    ensures { IfOk result (λ v. map view_field v.items ≡ declared.fields_from structs.now fields.now 0 fields.now) }
{
    let mut trees = Vec::with_capacity(alloc, fields.len())?;
    for k in 0..fields.len() {
        let name = field_name(alloc, fields, k)?;
        trees.push(field_tree(alloc, structs, name, &fields[k])?)?;
    }
    Ok(trees)
}
