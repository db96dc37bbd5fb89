// What pointers reach, counted before any of it is listed: nothing here takes memory.
ghost use Rattle.std.specs.Prelude.{◌≡◌, ◌<◌, ◌≤◌, ◌+◌, ◌*◌, IsTrue, length, nat_le};
ghost use Rattle.marshalling.specs.Leaves.{has_structs, is_elem, is_object, is_pointee, leaves_of, name_earlier, object_cells};
ghost use Rattle.marshalling.specs.Shape.{all_within, kind_within, lies_within, up_to};

use pt_tree::{Elem, Param, ParamKind};
use typed_tree::{StructInfo, VarTy};
use wire::{Arg, Block};

/// Whether what each pointer reaches lies in a block that is there.
pub(crate) fn are_within(
    structs: &[StructInfo],
    blocks: &[Block],
    params: &[Param],
    args: &[Arg],
) -> bool
    requires { IsTrue (has_structs structs.now params.now) }
    ensures { result ≡ all_within structs.now blocks.now params.now args.now }
{
    for (i, param) in params.iter().enumerate() {
        if i >= args.len() {
            return true;
        }
        if !argument_within(structs, blocks, param.kind, args[i]) {
            return false;
        }
    }
    true
}

fn argument_within(structs: &[StructInfo], blocks: &[Block], kind: ParamKind, arg: Arg) -> bool
    requires known { IsTrue (is_pointee (length structs.now) kind) }
    requires earlier { IsTrue (name_earlier 0 structs.now) }
    ensures { result ≡ kind_within structs.now blocks.now kind arg }
{
    match kind {
        ParamKind::Int(_) => true,
        ParamKind::Ptr { elem, .. } => pointer_within(structs, blocks, elem, arg),
    }
}

fn pointer_within(structs: &[StructInfo], blocks: &[Block], elem: Elem, arg: Arg) -> bool
    requires known { IsTrue (is_elem (length structs.now) elem) }
    requires earlier { IsTrue (name_earlier 0 structs.now) }
    ensures { result ≡ lies_within blocks.now (length (leaves_of structs.now elem)) arg }
{
    match arg {
        Arg::Number(_) | Arg::Sealed(_) | Arg::Null => true,
        Arg::At {
            block,
            base,
            count,
            ..
        } => {
            let block = block as usize;
            if block >= blocks.len() || count < 1 {
                return false;
            }
            elements_within(structs, elem, base, count, blocks[block].as_slice().len())
        }
    }
}

// Whether so many elements, at least one, end within so many cells.
fn elements_within(structs: &[StructInfo], elem: Elem, base: u32, count: u32, cells: usize) -> bool
    requires known { IsTrue (is_elem (length structs.now) elem) }
    requires earlier { IsTrue (name_earlier 0 structs.now) }
    requires some { 1 ≤ count }
    ensures { result ≡ nat_le (base + count * length (leaves_of structs.now elem)) cells }
{
    match element_size(structs, elem, cells) {
        Some(size) => ends_within(size, base, count, cells),
        None => false,
    }
}

/// Whether so many elements of a size end within so many cells.
pub(crate) fn ends_within(size: usize, base: u32, count: u32, cells: usize) -> bool
    ensures { result ≡ nat_le (base + count * size) cells }
{
    match (count as usize).checked_mul(size) {
        Some(reached) => reached <= cells && base as usize <= cells - reached,
        None => false,
    }
}

// How many cells an element has, where they are at most so many.
#[cycle(sizes)]
fn element_size(structs: &[StructInfo], elem: Elem, most: usize) -> Option<usize>
    requires known { IsTrue (is_elem (length structs.now) elem) }
    requires earlier { IsTrue (name_earlier 0 structs.now) }
    ensures { result ≡ up_to most (length (leaves_of structs.now elem)) }
{
    match elem {
        Elem::Int(_) => at_most(1, most),
        Elem::Struct(number) => {
            let info = &structs[number as usize];
            let mut size = 0;
            for field in info.fields.as_slice() {
                match object_size(structs, number, field.ty, most - size) {
                    Some(more) => size += more,
                    None => return None,
                }
            }
            Some(size)
        }
    }
}

// How many cells a field of the struct `number` has, which names earlier structs only.
#[cycle(sizes)]
fn object_size(structs: &[StructInfo], number: u32, ty: VarTy, most: usize) -> Option<usize>
    requires known { number < length structs.now }
    requires object { IsTrue (is_object number ty) }
    requires earlier { IsTrue (name_earlier 0 structs.now) }
    ensures { result ≡ up_to most (length (object_cells structs.now ty)) }
{
    match ty {
        VarTy::Int(ty) => element_size(structs, Elem::Int(ty), most),
        VarTy::Struct(inner) => element_size(structs, Elem::Struct(inner), most),
        VarTy::Array { elem, count } => {
            if count == 0 {
                return Some(0);
            }
            match element_size(structs, elem, most) {
                Some(size) => several(count, size, most),
                None => None,
            }
        }
        VarTy::Pointer { .. } => Some(0),
    }
}

fn several(count: u32, size: usize, most: usize) -> Option<usize>
    ensures { result ≡ up_to most (count * size) }
{
    match (count as usize).checked_mul(size) {
        Some(total) => at_most(total, most),
        None => None,
    }
}

fn at_most(size: usize, most: usize) -> Option<usize>
    ensures { result ≡ up_to most size }
{
    if size <= most { Some(size) } else { None }
}
