// The shapes of structs: how many integers they have, and to what those of one field come.
ghost use Rattle.std.specs.Prelude.{◌≡◌, [], IfOk};
ghost use Rattle.std.specs.List.{list_all};
ghost use Rattle.boot_rules.specs.Shapes as is;

use crate::shape::Shape;
use pt_tree::Elem;
use std::alloc::{AllocError, Global};
use typed_tree::{Field, StructInfo, VarTy};

// The most cells of an object or a field.
const MOST_CELLS: u32 = 65_536;

/// What is kept of each struct.
pub(crate) fn shapes_of(alloc: Global, structs: &[StructInfo]) -> Result<Vec<Shape>, AllocError>
    ensures { IfOk result (λ v. v.items ≡ is.shapes_from [] structs.now) }
{
    let mut shapes = Vec::with_capacity(alloc, structs.len())?;
    for info in structs {
        let shape = shape_of(shapes.as_slice(), info.fields.as_slice());
        shapes.push(shape)?;
    }
    Ok(shapes)
}

fn shape_of(shapes: &[Shape], fields: &[Field]) -> Shape
    ensures { result ≡ is.shape_of shapes.now fields.now }
{
    Shape {
        cells: cells_of_fields(shapes, fields),
        only: only_of(shapes, fields),
    }
}

// What these fields come to where there is one.
fn only_of(shapes: &[Shape], fields: &[Field]) -> Option<VarTy>
    ensures { result ≡ is.only_of shapes.now fields.now }
{
    match fields {
        [] => None,
        [field] => Some(whole(shapes, field.ty)),
        [_, _, ..] => None,
    }
}

// The type of the same integers past structs of one field.
fn whole(shapes: &[Shape], ty: VarTy) -> VarTy
    ensures { result ≡ is.whole shapes.now ty }
{
    match ty {
        VarTy::Struct(n) => whole_struct(shapes, n),
        VarTy::Array { elem, count } => whole_array(shapes, elem, count),
        VarTy::Int(_) | VarTy::Pointer { .. } => ty,
    }
}

fn whole_struct(shapes: &[Shape], n: u32) -> VarTy
    ensures { result ≡ is.whole_struct shapes.now n }
{
    match only_at(shapes, n) {
        Some(ty) => ty,
        None => VarTy::Struct(n),
    }
}

fn whole_array(shapes: &[Shape], elem: Elem, count: u32) -> VarTy
    ensures { result ≡ is.whole_array shapes.now elem count }
{
    match elem {
        Elem::Struct(n) => {
            if count == 1 {
                return whole_struct(shapes, n);
            }
            VarTy::Array { elem, count }
        }
        Elem::Int(_) => VarTy::Array { elem, count },
    }
}

/// What the struct of this number comes to where it has one field.
pub(crate) fn only_at(shapes: &[Shape], n: u32) -> Option<VarTy>
    ensures { result ≡ (is.shape_at shapes.now n).only }
{
    match shapes.get(n as usize) {
        Some(shape) => shape.only,
        None => None,
    }
}

// How many integers the struct of this number has.
fn cells_at(shapes: &[Shape], n: u32) -> u32
    ensures { result ≡ (is.shape_at shapes.now n).cells }
{
    match shapes.get(n as usize) {
        Some(shape) => shape.cells,
        None => 0,
    }
}

// How many integers an element has.
fn cells_of_element(shapes: &[Shape], elem: Elem) -> u32
    ensures { result ≡ is.element_cells shapes.now elem }
{
    match elem {
        Elem::Int(_) => 1,
        Elem::Struct(n) => cells_at(shapes, n),
    }
}

// How many integers an object has, counted up to 65,537.
fn cells_of_object(shapes: &[Shape], ty: VarTy) -> u32
    ensures { result ≡ is.object_cells shapes.now ty }
{
    match ty {
        VarTy::Int(_) => 1,
        VarTy::Struct(n) => cells_at(shapes, n),
        VarTy::Array { elem, count } => {
            counted(u64::from(count) * u64::from(cells_of_element(shapes, elem)))
        }
        VarTy::Pointer { .. } => 0,
    }
}

// How many integers these fields have together, counted up to 65,537.
fn cells_of_fields(shapes: &[Shape], fields: &[Field]) -> u32
    ensures { result ≡ is.fields_cells shapes.now fields.now }
{
    let mut cells = 0;
    for field in fields {
        cells = counted(u64::from(cells) + u64::from(cells_of_object(shapes, field.ty)));
    }
    cells
}

// So many cells, counted up to the first number that is too large.
fn counted(cells: u64) -> u32
    ensures { result ≡ is.counted cells }
{
    cells.min(u64::from(MOST_CELLS) + 1) as u32
}

/// Whether an object has at most 65,536 cells.
pub(crate) fn is_small(shapes: &[Shape], ty: VarTy) -> bool
    ensures { result ≡ is.is_small_by shapes.now ty }
{
    cells_of_object(shapes, ty) <= MOST_CELLS
}

/// Whether each field of each struct has at most 65,536 cells.
pub(crate) fn have_small_fields(shapes: &[Shape], structs: &[StructInfo]) -> bool
    ensures { result ≡ list_all (λ s. list_all (λ f. is.is_small_by shapes.now f.ty) s.fields) structs.now }
{
    structs
        .iter()
        .all(|info| has_small_fields(shapes, info.fields.as_slice()))
}

fn has_small_fields(shapes: &[Shape], fields: &[Field]) -> bool
    ensures { result ≡ list_all (λ f. is.is_small_by shapes.now f.ty) fields.now }
{
    fields.iter().all(|field| is_small(shapes, field.ty))
}
