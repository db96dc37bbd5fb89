// Where the items of a brace list go (C99 6.7.8p17 to p20).
ghost use Rattle.std.specs.Prelude.{◌≡◌, ◌+◌, ◌++◌, ℕ, List, IfOk, OnOk, drop, length, option_map, slice_get, take};
ghost use Rattle.typed_tree.specs.declared.types.StructInfo.{StructInfo};
ghost use Rattle.typed_tree.specs.Cells.{repeated};
ghost use Rattle.typed_tree.specs.Sizes.{fields_of};
ghost use Rattle.flow_edges.specs.ItemParts.{added, finished};
ghost use Rattle.flow_edges.specs.Items as is;

use crate::slot_numbers::behind;
use pt_tree::Elem;
use sides::{Object, Scope};
use std::alloc::{AllocError, Global};
use typed_tree::{StructInfo, VarTy, type_of_elem};

/// What is left of an object whose items are being found.
#[derive(Clone, Copy)]
pub(crate) enum Part {
    /// An object that begins at this slot, in which structs are nested at most so deep.
    Object {
        ty: VarTy,
        start: u64,
        depth: usize,
    },
    /// The fields of a struct from this one on, which begins at this slot.
    Fields {
        structure: u32,
        next: usize,
        start: u64,
        depth: usize,
    },
    /// What was found since there were so many slots, so many times more.
    Again {
        from: usize,
        more: u32,
    },
}

/// The slots of the first `wanted` integers of an object, one after the other. There may be some more. What is
/// left stands in a list, its last part first, so that the nesting of structs takes no stack; 2^64 parts are want
/// of memory.
pub(crate) fn first_items(
    alloc: Global,
    scope: &Scope<'_>,
    x: Object,
    wanted: usize,
) -> Result<Vec<u64>, AllocError>
    ensures { IfOk result (λ slots. take wanted slots.items ≡ take wanted (is.items_of scope.now.structs.now x)) }
{
    let mut slots = Vec::new(alloc);
    let mut parts = Vec::new(alloc);
    parts.push(Part::Object {
        ty: x.ty,
        start: x.start,
        depth: scope.structs.len(),
    })?;
    for _step in 0..u64::MAX {
        if slots.len() >= wanted {
            return Ok(slots);
        }
        let Some(part) = parts.pop() else {
            return Ok(slots);
        };
        add_part(alloc, scope, part, wanted, &mut parts, &mut slots)?;
    }
    Err(AllocError)
}

// what a part adds, or what is left of it
fn add_part(
    alloc: Global,
    scope: &Scope<'_>,
    part: Part,
    wanted: usize,
    parts: &mut Vec<Part>,
    slots: &mut Vec<u64>,
) -> Result<(), AllocError>
    ensures { OnOk result (take wanted (finished scope.now.structs.now parts.new.items slots.new.items)
        ≡ take wanted (finished scope.now.structs.now parts.old.items (added scope.now.structs.now part slots.old.items))) }
{
    match part {
        Part::Object { ty, start, depth } => add_object(ty, start, depth, parts, slots),
        Part::Fields {
            structure,
            next,
            start,
            depth,
        } => add_field(scope, structure, next, start, depth, parts),
        Part::Again { from, more } => add_again(alloc, from, more, wanted, slots),
    }
}

// an object: its one slot, or what it consists of
fn add_object(
    ty: VarTy,
    start: u64,
    depth: usize,
    parts: &mut Vec<Part>,
    slots: &mut Vec<u64>,
) -> Result<(), AllocError>
    ensures { OnOk result ((structs : List StructInfo) → finished structs parts.new.items slots.new.items ≡ finished structs parts.old.items (added structs (Part.Object ty start depth) slots.old.items)) }
{
    match ty {
        VarTy::Int(_) => {
            slots.push(start)?;
            Ok(())
        }
        VarTy::Struct(structure) => add_struct(structure, start, depth, parts),
        VarTy::Array { elem, count } => {
            let from = slots.len();
            add_elements(elem, count, start, depth, from, parts)
        }
        VarTy::Pointer { .. } => {
            slots.push(start)?;
            Ok(())
        }
    }
}

// the fields of a struct, if it may be nested there
fn add_struct(
    structure: u32,
    start: u64,
    depth: usize,
    parts: &mut Vec<Part>,
) -> Result<(), AllocError>
    ensures { OnOk result ((structs : List StructInfo) (zs : List ℕ) → finished structs parts.new.items zs ≡ finished structs parts.old.items (zs ++ is.struct_items structs depth start structure)) }
{
    if depth == 0 {
        return Ok(());
    }
    parts.push(Part::Fields {
        structure,
        next: 0,
        start,
        depth: depth - 1,
    })?;
    Ok(())
}

// so many elements, behind so many slots: those of one are found, and then repeated
fn add_elements(
    elem: Elem,
    count: u32,
    start: u64,
    depth: usize,
    from: usize,
    parts: &mut Vec<Part>,
) -> Result<(), AllocError>
    ensures { OnOk result ((structs : List StructInfo) (zs : List ℕ) → length zs ≡ from →
        finished structs parts.new.items zs ≡ finished structs parts.old.items (zs ++ repeated count (is.elem_items (is.struct_items structs depth) start elem))) }
{
    if count == 0 {
        return Ok(());
    }
    parts.push(Part::Again {
        from,
        more: count - 1,
    })?;
    parts.push(Part::Object {
        ty: type_of_elem(elem),
        start,
        depth,
    })?;
    Ok(())
}

// the type of the field of this number, if there is one
fn field_type(structs: &[StructInfo], structure: u32, number: usize) -> Option<VarTy>
    ensures { result ≡ option_map (λ f. f.ty) (slice_get (fields_of structs.now structure) number) }
{
    let info = structs.get(structure as usize)?;
    let field = info.fields.as_slice().get(number)?;
    Some(field.ty)
}

// the number of the field behind this one. 2^64 fields don't fit into memory
fn next_field(number: usize) -> Result<usize, AllocError>
    ensures { IfOk result (λ n. n ≡ number + 1) }
{
    match number.checked_add(1) {
        Some(next) => Ok(next),
        None => Err(AllocError),
    }
}

// a field, and those behind it
fn add_field(
    scope: &Scope<'_>,
    structure: u32,
    next: usize,
    start: u64,
    depth: usize,
    parts: &mut Vec<Part>,
) -> Result<(), AllocError>
    ensures { OnOk result ((zs : List ℕ) → finished scope.now.structs.now parts.new.items zs
        ≡ finished scope.now.structs.now parts.old.items (added scope.now.structs.now (Part.Fields structure next start depth) zs)) }
{
    let Some(ty) = field_type(scope.structs, structure, next) else {
        return Ok(());
    };
    let behind_it = behind(start, scope.table.count(ty))?;
    let after = next_field(next)?;
    parts.push(Part::Fields {
        structure,
        next: after,
        start: behind_it,
        depth,
    })?;
    parts.push(Part::Object { ty, start, depth })?;
    Ok(())
}

// what was found since there were so many slots, so many times more
fn add_again(
    alloc: Global,
    from: usize,
    more: u32,
    wanted: usize,
    slots: &mut Vec<u64>,
) -> Result<(), AllocError>
    ensures { OnOk result (take wanted slots.new.items ≡ take wanted (slots.old.items ++ repeated more (drop from slots.old.items))) }
{
    let element = since(alloc, from, slots.as_slice())?;
    add_repeated(slots, &element, more, wanted)
}

// what was found since there were so many slots
fn since(alloc: Global, from: usize, slots: &[u64]) -> Result<Vec<u64>, AllocError>
    ensures { IfOk result (λ v. v.items ≡ drop from slots.now) }
{
    if from > slots.len() {
        return Ok(Vec::new(alloc));
    }
    let found = slots[from..].to_vec(alloc)?;
    Ok(found)
}

// adds those of so many elements, of which one has these
#[tactic(auto, using(typed_tree::proofs::AlikeLists::step_repeated))]
fn add_repeated(
    slots: &mut Vec<u64>,
    element: &[u64],
    count: u32,
    wanted: usize,
) -> Result<(), AllocError>
    ensures { OnOk result (take wanted slots.new.items ≡ take wanted (slots.old.items ++ repeated count element.now)) }
{
    if element.is_empty() {
        return Ok(());
    }
    for _i in 0..count {
        if slots.len() >= wanted {
            return Ok(());
        }
        slots.extend_from_slice(element)?;
    }
    Ok(())
}
