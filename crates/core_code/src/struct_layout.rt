// How objects are laid out in cells.
ghost use Rattle.std.specs.Prelude.{◌≡◌, IfOk, get_or, map};
ghost use Rattle.typed_tree.specs.Sizes.{cells_by, elem_cells, fields_cells, sizes_of};
ghost use Rattle.core_code.specs.Starts.{start_in, starts_from};

use pt_base::{IntType, Listed, product, sum};
use pt_tree::Elem;
use std::alloc::{AllocError, Global};
use std::marker::Model;
use typed_tree::{Field, StructInfo, VarTy};

/// The structs of a program, how many cells each has, and where its fields begin. Contracts see it
/// as the structs.
#[derive(Drop)]
pub struct StructLayout<'a> {
    structs: &'a [StructInfo],
    sizes: Vec<u64>,
    // for each struct where its fields begin, and then where it ends
    starts: Vec<Listed<u64>>,
}

impl<'a> Model for StructLayout<'a> {
    ghost use Rattle.std.specs.Prelude.{List};
    ghost use Rattle.typed_tree.specs.declared.types.StructInfo.{StructInfo};

    ghost Value = { List StructInfo };

    ghost use Rattle.std.specs.Prelude.{◌≡◌, map};
    ghost use Rattle.typed_tree.specs.Sizes.{sizes_of};
    ghost use Rattle.core_code.specs.Starts.{starts_in};

    ghost view = { λ l. l.structs.now };

    ghost invariant = { λ l. (l.sizes.items ≡ sizes_of l.structs.now) × (l.starts.items ≡ map (starts_in l.structs.now) l.structs.now) };
}

impl<'a> StructLayout<'a> {
    ghost use Rattle.std.specs.Prelude.{◌≡◌, IfOk};
    ghost use Rattle.typed_tree.specs.Sizes.{cells_by, elem_cells, fields_of, sizes_of};
    ghost use Rattle.pt_core.specs.Types.{field_type, path_type};
    ghost use Rattle.pt_core.specs.Values.{offset_in};
    ghost use Rattle.core_code.specs.Paths.{path_offset};
    ghost use Rattle.core_code.specs.Starts.{starts_from};

    /// The layout by these structs.
    pub fn new(alloc: Global, structs: &'a [StructInfo]) -> Result<StructLayout<'a>, AllocError>
        ensures { IfOk result (λ l. l ≡ structs.now) }
    {
        let sizes = sizes_of_structs(alloc, structs)?;
        let starts = starts_of_structs(alloc, sizes.as_slice(), structs)?;
        Ok(StructLayout {
            structs,
            sizes,
            starts,
        })
    }

    /// How many cells an element has.
    pub fn element_cells(&self, elem: Elem) -> u64
        ensures { result ≡ elem_cells (sizes_of self.now) elem }
    {
        cells_of_element(self.sizes.as_slice(), elem)
    }

    /// How many cells an object has.
    pub fn object_cells(&self, ty: VarTy) -> Result<u64, AllocError>
        ensures { IfOk result (λ n. n ≡ cells_by (sizes_of self.now) ty) }
    {
        cells_of_object(self.sizes.as_slice(), ty)
    }

    /// How many cells behind the beginning of an object of this type a path of fields leads, and
    /// the type of the object there.
    pub fn along(&self, whole: VarTy, path: &[u32]) -> Result<(u64, VarTy), AllocError>
        ensures { IfOk result (λ p. (p.0 ≡ path_offset self.now whole path.now) × (p.1 ≡ path_type self.now whole path.now)) }
    {
        let mut cells = 0;
        let mut ty = whole;
        for field in path {
            cells = sum(cells, self.offset(ty, *field))?;
            ty = self.type_of_field(ty, *field);
        }
        Ok((cells, ty))
    }

    // At which cell of an object a field begins.
    fn offset(&self, ty: VarTy, field: u32) -> u64
        ensures { result ≡ offset_in self.now ty field }
    {
        match ty {
            VarTy::Struct(structure) => start_at(self.starts(structure), field),
            VarTy::Int(_) | VarTy::Array { .. } | VarTy::Pointer { .. } => 0,
        }
    }

    // Where the fields of a struct begin, and where it ends.
    fn starts(&self, structure: u32) -> &[u64]
        ensures { result.now ≡ starts_from (sizes_of self.now) 0 (fields_of self.now structure) }
    {
        match self.starts.get(structure as usize) {
            Some(starts) => starts.as_slice(),
            None => &[0],
        }
    }

    // The type of a field, int where there is none; an object of another type stays.
    fn type_of_field(&self, ty: VarTy, field: u32) -> VarTy
        ensures { result ≡ field_type self.now ty field }
    {
        match ty {
            VarTy::Struct(structure) => match self.fields(structure).get(field as usize) {
                Some(field) => field.ty,
                None => VarTy::Int(IntType::Int),
            },
            VarTy::Int(_) | VarTy::Array { .. } | VarTy::Pointer { .. } => ty,
        }
    }

    // The fields of a struct, none where there is none of this number.
    fn fields(&self, structure: u32) -> &[Field]
        ensures { result.now ≡ fields_of self.now structure }
    {
        match self.structs.get(structure as usize) {
            Some(info) => info.fields.as_slice(),
            None => &[],
        }
    }
}

// How many cells each struct has.
fn sizes_of_structs(alloc: Global, structs: &[StructInfo]) -> Result<Vec<u64>, AllocError>
    ensures { IfOk result (λ v. v.items ≡ sizes_of structs.now) }
{
    let mut sizes = Vec::with_capacity(alloc, structs.len())?;
    for info in structs {
        let cells = cells_of_fields(sizes.as_slice(), info.fields.as_slice())?;
        sizes.push(cells)?;
    }
    Ok(sizes)
}

// For each struct where its fields begin, and where it ends.
fn starts_of_structs(
    alloc: Global,
    sizes: &[u64],
    structs: &[StructInfo],
) -> Result<Vec<Listed<u64>>, AllocError>
    ensures { IfOk result (λ v. v.items ≡ map (λ s. starts_from sizes.now 0 s.fields) structs.now) }
{
    let mut starts = Vec::with_capacity(alloc, structs.len())?;
    for info in structs {
        starts.push(starts_of_fields(alloc, sizes, info.fields.as_slice())?)?;
    }
    Ok(starts)
}

// Where these fields begin, one behind the other, and where the last ends.
fn starts_of_fields(
    alloc: Global,
    sizes: &[u64],
    fields: &[Field],
) -> Result<Listed<u64>, AllocError>
    ensures { IfOk result (λ l. l ≡ starts_from sizes.now 0 fields.now) }
{
    let mut starts = Vec::new(alloc);
    let mut cells = 0;
    for field in fields {
        starts.push(cells)?;
        cells = sum(cells, cells_of_object(sizes, field.ty)?)?;
    }
    starts.push(cells)?;
    Ok(Listed::new(starts))
}

// The start of this number; the last one where there are fewer.
fn start_at(starts: &[u64], field: u32) -> u64
    ensures { result ≡ start_in starts.now field }
{
    match starts.get(field as usize) {
        Some(start) => *start,
        None => match starts.last() {
            Some(end) => *end,
            None => 0,
        },
    }
}

// How many cells an element has, where structs have so many.
fn cells_of_element(sizes: &[u64], elem: Elem) -> u64
    ensures { result ≡ elem_cells sizes.now elem }
{
    match elem {
        Elem::Int(_) => 1,
        Elem::Struct(n) => size_at(sizes, n),
    }
}

// How many cells an object has, where structs have so many.
fn cells_of_object(sizes: &[u64], ty: VarTy) -> Result<u64, AllocError>
    ensures { IfOk result (λ n. n ≡ cells_by sizes.now ty) }
{
    match ty {
        VarTy::Int(_) => Ok(1),
        VarTy::Struct(n) => Ok(size_at(sizes, n)),
        VarTy::Array { elem, count } => product(u64::from(count), cells_of_element(sizes, elem)),
        VarTy::Pointer { .. } => Ok(0),
    }
}

// How many cells these fields have together.
fn cells_of_fields(sizes: &[u64], fields: &[Field]) -> Result<u64, AllocError>
    ensures { IfOk result (λ n. n ≡ fields_cells sizes.now fields.now) }
{
    let mut all = 0;
    for field in fields {
        all = sum(all, cells_of_object(sizes, field.ty)?)?;
    }
    Ok(all)
}

// The size of the struct of this number, 0 where there is none.
fn size_at(sizes: &[u64], n: u32) -> u64
    ensures { result ≡ get_or sizes.now n 0 }
{
    match sizes.get(n as usize) {
        Some(size) => *size,
        None => 0,
    }
}
