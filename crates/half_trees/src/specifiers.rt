// What stands before declared names: marks and types.
ghost use Rattle.std.specs.Prelude.{◌≡◌, ◌++◌, [], ◌∷◌, IfOk, OnOk, map};
ghost use Rattle.pt_tree.specs.SpecifierTree.{attribute, keyword, view_spec};
ghost use Rattle.half_trees.specs.Names.{nowhere};
ghost use Rattle.half_trees.specs.Declarations as declared;

use crate::names::{NOWHERE, struct_name, word};
use pt_base::IntType;
use pt_tree::{Elem, Spec, SpecWord, Word};
use std::alloc::{AllocError, Global};
use typed_tree::{StructInfo, VarTy};

/// How something is marked.
#[derive(Clone, Copy)]
pub(crate) struct Marks {
    pub private: bool,
    pub unpriv: bool,
    pub declassify: bool,
}

// Appends the name of a mark that stands there.
fn push_mark(
    alloc: Global,
    stands: bool,
    name: &[u8],
    names: &mut Vec<Word>,
) -> Result<(), AllocError>
    ensures { OnOk result (names.new.items ≡ names.old.items ++ declared.mark stands name.now) }
{
    if stands {
        names.push(word(Vec::from_slice(alloc, name)?))?;
    }
    Ok(())
}

// An attribute with these names, if there are any.
fn attribute_of(alloc: Global, names: Vec<Word>) -> Result<Vec<Spec>, AllocError>
    ensures { IfOk result (λ v. map view_spec v.items ≡ declared.attribute_of names.items) }
{
    let mut specs = Vec::new(alloc);
    if !names.is_empty() {
        specs.push(Spec::Attribute(NOWHERE, names))?;
    }
    Ok(specs)
}

/// The attribute of something that is marked so, if it is.
pub(crate) fn mark_specs(alloc: Global, marks: Marks) -> Result<Vec<Spec>, AllocError>
    ensures { IfOk result (λ v. map view_spec v.items ≡ declared.mark_specs marks.private marks.unpriv marks.declassify) }
{
    let mut names = Vec::new(alloc);
    push_mark(alloc, marks.private, b"priv", &mut names)?;
    push_mark(alloc, marks.unpriv, b"unpriv", &mut names)?;
    push_mark(alloc, marks.declassify, b"declassify", &mut names)?;
    attribute_of(alloc, names)
}

// Appends a keyword.
fn push_keyword(word: SpecWord, specs: &mut Vec<Spec>) -> Result<(), AllocError>
    ensures { OnOk result (map view_spec specs.new.items ≡ map view_spec specs.old.items ++ keyword nowhere word ∷ []) }
{
    specs.push(Spec::Keyword(NOWHERE, word))?;
    Ok(())
}

// Appends two keywords.
fn push_keywords(first: SpecWord, second: SpecWord, specs: &mut Vec<Spec>) -> Result<(), AllocError>
    ensures { OnOk result (map view_spec specs.new.items ≡ map view_spec specs.old.items ++ (keyword nowhere first ∷ keyword nowhere second ∷ [])) }
{
    push_keyword(first, specs)?;
    push_keyword(second, specs)
}

/// Appends the words that name an integer type.
pub(crate) fn push_int(t: IntType, specs: &mut Vec<Spec>) -> Result<(), AllocError>
    ensures { OnOk result (map view_spec specs.new.items ≡ map view_spec specs.old.items ++ declared.int_specs t) }
{
    match t {
        IntType::Char => push_keyword(SpecWord::Char, specs),
        IntType::SChar => push_keywords(SpecWord::Signed, SpecWord::Char, specs),
        IntType::UChar => push_keywords(SpecWord::Unsigned, SpecWord::Char, specs),
        IntType::Short => push_keyword(SpecWord::Short, specs),
        IntType::UShort => push_keywords(SpecWord::Unsigned, SpecWord::Short, specs),
        IntType::Int => push_keyword(SpecWord::Int, specs),
        IntType::UInt => push_keywords(SpecWord::Unsigned, SpecWord::Int, specs),
        IntType::Long => push_keyword(SpecWord::Long, specs),
        IntType::ULong => push_keywords(SpecWord::Unsigned, SpecWord::Long, specs),
    }
}

/// Appends what names the result of a function.
pub(crate) fn push_result(
    result_type: Option<IntType>,
    specs: &mut Vec<Spec>,
) -> Result<(), AllocError>
    ensures { OnOk result (map view_spec specs.new.items ≡ map view_spec specs.old.items ++ declared.result_specs result_type) }
{
    match result_type {
        Some(t) => push_int(t, specs),
        None => push_keyword(SpecWord::Void, specs),
    }
}

// Appends a struct by its tag.
fn push_struct(
    alloc: Global,
    structs: &[StructInfo],
    n: u32,
    specs: &mut Vec<Spec>,
) -> Result<(), AllocError>
    ensures { OnOk result (map view_spec specs.new.items ≡ map view_spec specs.old.items ++ declared.elem_specs structs.now (Elem.Struct n)) }
{
    let tag = word(struct_name(alloc, structs, n as usize)?);
    specs.push(Spec::structure(NOWHERE, tag, Vec::new(alloc)))?;
    Ok(())
}

// Appends what names an element.
fn push_elem(
    alloc: Global,
    structs: &[StructInfo],
    elem: Elem,
    specs: &mut Vec<Spec>,
) -> Result<(), AllocError>
    ensures { OnOk result (map view_spec specs.new.items ≡ map view_spec specs.old.items ++ declared.elem_specs structs.now elem) }
{
    match elem {
        Elem::Int(t) => push_int(t, specs),
        Elem::Struct(n) => push_struct(alloc, structs, n, specs),
    }
}

/// Appends what stands before the name of an object of this type, behind its marks.
pub(crate) fn push_object(
    alloc: Global,
    structs: &[StructInfo],
    ty: VarTy,
    specs: &mut Vec<Spec>,
) -> Result<(), AllocError>
    ensures { OnOk result (map view_spec specs.new.items ≡ map view_spec specs.old.items ++ declared.object_specs structs.now ty) }
{
    match ty {
        VarTy::Int(t) => push_int(t, specs),
        VarTy::Struct(n) => push_struct(alloc, structs, n, specs),
        VarTy::Array { elem, .. } => push_elem(alloc, structs, elem, specs),
        VarTy::Pointer { elem, fixed } => push_pointee(alloc, structs, elem, fixed, specs),
    }
}

// Appends what names a pointee, which may be const.
fn push_pointee(
    alloc: Global,
    structs: &[StructInfo],
    elem: Elem,
    fixed: bool,
    specs: &mut Vec<Spec>,
) -> Result<(), AllocError>
    ensures { OnOk result (map view_spec specs.new.items ≡ map view_spec specs.old.items ++ (declared.const_specs fixed ++ declared.elem_specs structs.now elem)) }
{
    if fixed {
        push_keyword(SpecWord::Const, specs)?;
    }
    push_elem(alloc, structs, elem, specs)
}

/// The marks of an object and what names its type.
pub(crate) fn object_specs(
    alloc: Global,
    structs: &[StructInfo],
    marks: Marks,
    ty: VarTy,
) -> Result<Vec<Spec>, AllocError>
    ensures { IfOk result (λ v. map view_spec v.items ≡ declared.mark_specs marks.private marks.unpriv marks.declassify ++ declared.object_specs structs.now ty) }
{
    let mut specs = mark_specs(alloc, marks)?;
    push_object(alloc, structs, ty, &mut specs)?;
    Ok(specs)
}
