// The structs of a program, and how many cells an object has.
ghost use Rattle.std.specs.Prelude.{◌≡◌, ◌+◌, OnOk, OnErr, IfOk};
ghost use Rattle.check_declarations.specs.Cells as cells;
ghost use Rattle.check_declarations.specs.NameTables.{is_new};
ghost use Rattle.check_declarations.specs.Structs as is;

use crate::name_table::NameTable;
use pt_tree::Elem;
use std::alloc::{AllocError, Global};
use type_rules::Type;

/// Cells are counted up to this number, which is over every limit.
pub(crate) const MOST_CELLS: u32 = 1_048_577;

/// A field of a struct.
#[derive(Clone, Copy, Drop)]
pub struct FieldEntry {
    pub ty: Type,
    /// The field is const itself.
    pub fixed: bool,
    /// It is marked `priv`.
    pub marked: bool,
}

/// The fields of a struct by name.
pub type Fields = NameTable<FieldEntry>;

/// A struct.
#[derive(Drop)]
pub struct StructEntry {
    pub fields: Fields,
    /// How many cells an object of this type has, counted up to 1,048,577.
    pub cells: u32,
    /// A part of it is const.
    pub has_const: bool,
}

/// A field with its number among the fields of its struct.
#[derive(Clone, Copy)]
pub struct FoundField {
    pub number: u32,
    pub entry: FieldEntry,
}

/// The structs of a program by tag.
pub type Structs = NameTable<StructEntry>;

/// The type of the struct with this tag; Bad where none is declared.
pub fn struct_named(structs: &Structs, tag: &[u8]) -> Type
    ensures { result ≡ is.struct_type structs.now tag.now }
{
    match structs.number_of(tag) {
        Some(number) => Type::Struct(number),
        None => Type::Bad,
    }
}

/// Whether a part of an object of this type is const, whatever the object is.
pub fn has_const(structs: &Structs, ty: Type) -> bool
    ensures { result ≡ is.has_const structs.now ty }
{
    match ty {
        Type::Struct(n)
        | Type::Array {
            elem: Elem::Struct(n),
            ..
        } => has_const_part(structs, n),
        _ => false,
    }
}

fn has_const_part(structs: &Structs, number: u32) -> bool
    ensures { result ≡ is.has_const_part structs.now number }
{
    match structs.get(number) {
        Some(entry) => entry.has_const,
        None => false,
    }
}

/// How many cells an object of this type has, counted up to 1,048,577; none where it is Bad.
pub fn cells_of(structs: &Structs, ty: Type) -> u32
    ensures { result ≡ cells.cells_of structs.now ty }
{
    match ty {
        Type::Bad | Type::Void => 0,
        Type::Int(_) | Type::Pointer { .. } => 1,
        Type::Struct(n) => elem_cells(structs, Elem::Struct(n)),
        Type::Array { elem, count } => {
            counted(u64::from(count) * u64::from(elem_cells(structs, elem)))
        }
    }
}

/// How many cells one element has.
fn elem_cells(structs: &Structs, elem: Elem) -> u32
    ensures { result ≡ cells.cells_of_elem structs.now elem }
{
    match elem {
        Elem::Int(_) => 1,
        Elem::Struct(n) => match structs.get(n) {
            Some(entry) => entry.cells,
            None => 0,
        },
    }
}

/// So many cells, counted up to 1,048,577.
fn counted(count: u64) -> u32
    ensures { result ≡ cells.counted count }
{
    count.min(u64::from(MOST_CELLS)) as u32
}

/// The sum of two numbers of cells, counted up to 1,048,577.
fn plus(a: u32, b: u32) -> u32
    ensures { result ≡ cells.counted (a + b) }
{
    counted(u64::from(a) + u64::from(b))
}

/// How many cells the fields have together, counted up to 1,048,577.
fn cells_in(structs: &Structs, fields: &Fields) -> u32
    ensures { result ≡ cells.cells_in structs.now fields.now }
{
    let mut total = 0;
    for field in fields.values() {
        total = plus(total, cells_of(structs, field.ty));
    }
    total
}

/// Whether a part of one of the fields is const.
fn has_const_field(structs: &Structs, fields: &Fields) -> bool
    ensures { result ≡ is.has_const_field structs.now fields.now }
{
    fields
        .values()
        .any(|field| field.fixed || has_const(structs, field.ty))
}

/// Declares a struct with this tag and these fields, and says whether the tag is new. A struct that
/// is there keeps its fields. Where memory is wanting, the table stays as it is.
pub fn declare_struct(
    alloc: Global,
    structs: &mut Structs,
    tag: &[u8],
    fields: Fields,
) -> Result<bool, AllocError>
    ensures declared { OnOk result (structs.new ≡ is.with_struct structs.old tag.now fields) }
    ensures new { IfOk result (λ b. b ≡ is_new structs.old tag.now) }
    ensures err { OnErr result (structs.new ≡ structs.old) }
{
    let entry = StructEntry {
        cells: cells_in(structs, &fields),
        has_const: has_const_field(structs, &fields),
        fields,
    };
    structs.add(alloc, tag, entry)
}

/// The field of this name of the struct with this number, and its number.
pub fn field_named(structs: &Structs, number: u32, name: &[u8]) -> Option<FoundField>
    ensures { result ≡ is.field_named structs.now number name.now }
{
    let fields = &structs.get(number)?.fields;
    let place = fields.number_of(name)?;
    let entry = fields.get(place)?;
    Some(FoundField {
        number: place,
        entry: *entry,
    })
}
