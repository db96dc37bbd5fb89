// Which structs have cells under marked fields.
ghost use Rattle.std.specs.Prelude.{◌≡◌, IfOk, get_or};
ghost use Rattle.outlining.specs.StructCells as is;

use pt_tree::Elem;
use std::alloc::{AllocError, Global};
use typed_tree::{Field, StructInfo, VarTy};

/// Whether a struct has cells, and whether it has some under a marked field.
#[derive(Clone, Copy)]
pub(crate) struct Cells {
    pub some: bool,
    pub marked: bool,
}

// no cell
fn no_cells() -> Cells
    ensures { result ≡ is.no_cells }
{
    Cells {
        some: false,
        marked: false,
    }
}

// the cell of an integer
fn one_cell() -> Cells
    ensures { result ≡ is.one_cell }
{
    Cells {
        some: true,
        marked: false,
    }
}

// those of two objects together
fn both(a: Cells, b: Cells) -> Cells
    ensures { result ≡ is.both a b }
{
    Cells {
        some: a.some || b.some,
        marked: a.marked || b.marked,
    }
}

// those of an object under a field with this mark
fn under_mark(marked: bool, cells: Cells) -> Cells
    ensures { result ≡ is.under_mark marked cells }
{
    Cells {
        some: cells.some,
        marked: (marked && cells.some) || cells.marked,
    }
}

// those of the struct of this number
fn cells_at(known: &[Cells], number: u32) -> Cells
    ensures { result ≡ get_or known.now number is.no_cells }
{
    match known.get(number as usize) {
        Some(cells) => *cells,
        None => no_cells(),
    }
}

// those of an element, by those of each struct
fn elem_cells(known: &[Cells], elem: Elem) -> Cells
    ensures { result ≡ is.elem_cells known.now elem }
{
    match elem {
        Elem::Int(_) => one_cell(),
        Elem::Struct(number) => cells_at(known, number),
    }
}

// those of so many elements
fn array_cells(count: u32, cells: Cells) -> Cells
    ensures { result ≡ is.array_cells count cells }
{
    if count == 0 { no_cells() } else { cells }
}

// those of an object
fn object_cells(known: &[Cells], ty: VarTy) -> Cells
    ensures { result ≡ is.object_cells known.now ty }
{
    match ty {
        VarTy::Int(_) => one_cell(),
        VarTy::Struct(number) => cells_at(known, number),
        VarTy::Array { elem, count } => array_cells(count, elem_cells(known, elem)),
        VarTy::Pointer { .. } => no_cells(),
    }
}

// those of a field
fn field_cells(known: &[Cells], field: &Field) -> Cells
    ensures { result ≡ is.field_cells known.now field.now }
{
    under_mark(field.marked, object_cells(known, field.ty))
}

// those of fields together
fn fields_cells(known: &[Cells], fields: &[Field]) -> Cells
    ensures { result ≡ is.fields_cells known.now fields.now }
{
    let mut all = no_cells();
    for field in fields {
        all = both(all, field_cells(known, field));
    }
    all
}

/// Those of each struct.
pub(crate) fn cells_of(alloc: Global, structs: &[StructInfo]) -> Result<Vec<Cells>, AllocError>
    ensures { IfOk result (λ v. v.items ≡ is.cells_of structs.now) }
{
    let mut known = Vec::with_capacity(alloc, structs.len())?;
    for info in structs {
        let cells = fields_cells(known.as_slice(), info.fields.as_slice());
        known.push(cells)?;
    }
    Ok(known)
}

/// Whether an element has a cell under a marked field.
pub(crate) fn is_marked_in(known: &[Cells], elem: Elem) -> bool
    ensures { result ≡ is.is_marked_in known.now elem }
{
    elem_cells(known, elem).marked
}
