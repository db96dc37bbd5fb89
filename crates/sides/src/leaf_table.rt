// How many leaves structs have, and where those of their fields begin.
ghost use Rattle.std.specs.Prelude.{◌≡◌, IfOk, get_or, map};
ghost use Rattle.typed_tree.specs.Sizes.{cells_by, elem_cells, fields_cells, sizes_of};
ghost use Rattle.sides.specs.Leaves.{field_starts};
ghost use Rattle.sides.specs.LeafTables as is;

use pt_base::{Listed, product, sum};
use pt_tree::Elem;
use std::alloc::{AllocError, Global};
use typed_tree::{Field, StructInfo, VarTy};

/// How many leaves structs have, where those of their fields begin, and how many integers they have.
#[derive(Drop)]
pub struct LeafTable {
    /// For each struct, how many leaves it has.
    pub counts: Vec<u64>,
    /// For each struct, at which of its leaves each field begins.
    pub starts: Vec<Listed<u64>>,
    /// For each struct, how many integers it has, those of all elements of arrays being counted.
    pub cells: Vec<u64>,
}

impl LeafTable {
    ghost use Rattle.std.specs.Prelude.{◌≡◌, IfOk, List};
    ghost use Rattle.typed_tree.specs.declared.types.StructInfo.{StructInfo};
    ghost use Rattle.sides.specs.Leaves.{leaf_count, field_start};
    ghost use Rattle.sides.specs.LeafTables.{IsLeafTable, type_count, start_in};

    /// The table of these structs.
    pub(crate) fn new(alloc: Global, structs: &[StructInfo]) -> Result<LeafTable, AllocError>
        ensures { IfOk result (λ l. IsLeafTable structs.now l) }
    {
        let counts = counts_of(alloc, structs)?;
        let starts = starts_of(alloc, counts.as_slice(), structs)?;
        let cells = cells_of(alloc, structs)?;
        Ok(LeafTable {
            counts,
            starts,
            cells,
        })
    }

    /// How many leaves an object of this type has.
    pub fn count(&self, ty: VarTy) -> u64
        ensures { (structs : List StructInfo) → IsLeafTable structs self.now → result ≡ leaf_count structs ty }
    {
        count_of(self.counts.as_slice(), ty)
    }

    /// Where the leaves of the field of this number begin among those of its struct, 0 where there
    /// is no such field.
    pub fn start(&self, structure: u32, field: u32) -> u64
        ensures { (structs : List StructInfo) → IsLeafTable structs self.now → result ≡ field_start structs structure field }
    {
        self.start_at(structure, field)
    }

    // the same, by the table
    fn start_at(&self, structure: u32, field: u32) -> u64
        ensures { result ≡ start_in self.now.starts.items structure field }
    {
        match self.starts.get(structure as usize) {
            Some(starts) => at(starts.as_slice(), field),
            None => 0,
        }
    }
}

// the number at this place, 0 where there is none
fn at(numbers: &[u64], place: u32) -> u64
    ensures { result ≡ get_or numbers.now place 0 }
{
    match numbers.get(place as usize) {
        Some(number) => *number,
        None => 0,
    }
}

// how many leaves an element has, where structs have so many
fn elem_count(counts: &[u64], elem: Elem) -> u64
    ensures { result ≡ is.elem_count counts.now elem }
{
    match elem {
        Elem::Int(_) => 1,
        Elem::Struct(n) => at(counts, n),
    }
}

// how many leaves an object has, where structs have so many
fn count_of(counts: &[u64], ty: VarTy) -> u64
    ensures { result ≡ is.type_count counts.now ty }
{
    match ty {
        VarTy::Int(_) => 1,
        VarTy::Struct(n) => at(counts, n),
        VarTy::Array { elem, .. } => elem_count(counts, elem),
        VarTy::Pointer { elem, .. } => elem_count(counts, elem),
    }
}

// how many leaves these fields have together
fn fields_count(counts: &[u64], fields: &[Field]) -> Result<u64, AllocError>
    ensures { IfOk result (λ n. n ≡ is.fields_count counts.now fields.now) }
{
    let mut all = 0;
    for field in fields {
        all = sum(all, count_of(counts, field.ty))?;
    }
    Ok(all)
}

// how many leaves each struct has
fn counts_of(alloc: Global, structs: &[StructInfo]) -> Result<Vec<u64>, AllocError>
    ensures { IfOk result (λ v. v.items ≡ is.counts_of structs.now) }
{
    let mut counts = Vec::new(alloc);
    for info in structs {
        let count = fields_count(counts.as_slice(), info.fields.as_slice())?;
        counts.push(count)?;
    }
    Ok(counts)
}

// where the leaves of each of these fields begin
fn field_starts(alloc: Global, counts: &[u64], fields: &[Field]) -> Result<Vec<u64>, AllocError>
    ensures { IfOk result (λ v. v.items ≡ field_starts (is.type_count counts.now) 0 fields.now) }
{
    let mut starts = Vec::new(alloc);
    let mut next = 0;
    for field in fields {
        starts.push(next)?;
        next = sum(next, count_of(counts, field.ty))?;
    }
    Ok(starts)
}

// the same for each struct
fn starts_of(
    alloc: Global,
    counts: &[u64],
    structs: &[StructInfo],
) -> Result<Vec<Listed<u64>>, AllocError>
    ensures { IfOk result (λ v. v.items ≡ map (λ s. field_starts (is.type_count counts.now) 0 s.fields) structs.now) }
{
    let mut starts = Vec::new(alloc);
    for info in structs {
        let all = field_starts(alloc, counts, info.fields.as_slice())?;
        starts.push(Listed::new(all))?;
    }
    Ok(starts)
}

// how many integers an element has, where structs have so many
fn elem_cells(sizes: &[u64], elem: Elem) -> u64
    ensures { result ≡ elem_cells sizes.now elem }
{
    match elem {
        Elem::Int(_) => 1,
        Elem::Struct(n) => at(sizes, n),
    }
}

// how many integers an object has, where structs have so many
fn type_cells(sizes: &[u64], ty: VarTy) -> Result<u64, AllocError>
    ensures { IfOk result (λ n. n ≡ cells_by sizes.now ty) }
{
    match ty {
        VarTy::Int(_) => Ok(1),
        VarTy::Struct(n) => Ok(at(sizes, n)),
        VarTy::Array { elem, count } => product(u64::from(count), elem_cells(sizes, elem)),
        VarTy::Pointer { .. } => Ok(0),
    }
}

// how many integers these fields have together
fn fields_cells(sizes: &[u64], fields: &[Field]) -> Result<u64, AllocError>
    ensures { IfOk result (λ n. n ≡ fields_cells sizes.now fields.now) }
{
    let mut all = 0;
    for field in fields {
        all = sum(all, type_cells(sizes, field.ty)?)?;
    }
    Ok(all)
}

// how many integers each struct has
fn cells_of(alloc: Global, structs: &[StructInfo]) -> Result<Vec<u64>, AllocError>
    ensures { IfOk result (λ v. v.items ≡ sizes_of structs.now) }
{
    let mut sizes = Vec::new(alloc);
    for info in structs {
        let cells = fields_cells(sizes.as_slice(), info.fields.as_slice())?;
        sizes.push(cells)?;
    }
    Ok(sizes)
}
