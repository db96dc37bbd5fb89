// Whether a body is one for a signature.
ghost use Rattle.std.specs.Prelude.{◌≡◌, ◌<◌, ◌^◌, IsTrue, IfOk, OnErr, length};
ghost use Rattle.std.specs.List.{list_all, list_any, zip};
ghost use Rattle.pt_int.specs.Conversion.{is_in_range};
ghost use Rattle.typed_tree.specs.Cells.{repeated};
ghost use Rattle.marshalling.specs.Leaves.{has_structs, is_elem, is_pointee, leaves_of, name_earlier};
ghost use Rattle.marshalling.specs.Shape.{all_within, are_named as each_named, fit_all, fits_block, fits_integer, fits_kind, fits_leaf, fits_pointer, fits_range, is_number_of, is_shaped as shaped, is_typed, may_stand, points_into};

use crate::leaf::Leaf;
use crate::leaves::element_cells;
use crate::reach::{are_within, ends_within};
use pt_base::{IntType, same_int};
use pt_int::is_in_range;
use pt_tree::{Elem, Param, ParamKind};
use std::alloc::{AllocError, Global};
use typed_tree::StructInfo;
use wire::{Arg, Block, CallBody, WireCell};

/// Whether the body is one for these parameters.
///
/// The cells of a struct are listed only where each pointer lies in its block, which is as long then.
pub(crate) fn is_shaped(
    alloc: Global,
    structs: &[StructInfo],
    params: &[Param],
    body: &CallBody,
) -> Result<bool, AllocError>
    requires { IsTrue (has_structs structs.now params.now) }
    ensures answer { IfOk result (λ is. is ≡ shaped structs.now params.now body.now) }
    ensures within { OnErr result (IsTrue (all_within structs.now body.now.blocks params.now body.now.args)) }
{
    let args = body.args.as_slice();
    let blocks = body.blocks.as_slice();
    if !are_within(structs, blocks, params, args) {
        return Ok(false);
    }
    if !arguments_fit(alloc, structs, blocks, params, args)? {
        return Ok(false);
    }
    Ok(are_named(args, blocks) && all_typed(blocks))
}

fn arguments_fit(
    alloc: Global,
    structs: &[StructInfo],
    blocks: &[Block],
    params: &[Param],
    args: &[Arg],
) -> Result<bool, AllocError>
    requires { IsTrue (has_structs structs.now params.now) }
    ensures { IfOk result (λ is. is ≡ fit_all structs.now blocks.now params.now args.now) }
{
    if params.len() != args.len() {
        return Ok(false);
    }
    for (i, param) in params.iter().enumerate() {
        if !argument_fits(alloc, structs, blocks, param, args[i])? {
            return Ok(false);
        }
    }
    Ok(true)
}

fn argument_fits(
    alloc: Global,
    structs: &[StructInfo],
    blocks: &[Block],
    param: &Param,
    arg: Arg,
) -> Result<bool, AllocError>
    requires known { IsTrue (is_pointee (length structs.now) param.now.kind) }
    requires earlier { IsTrue (name_earlier 0 structs.now) }
    ensures { IfOk result (λ is. is ≡ fits_kind structs.now blocks.now param.now.marked param.now.kind arg) }
{
    match param.kind {
        ParamKind::Int(ty) => Ok(integer_fits(param.marked, ty, arg)),
        ParamKind::Ptr { elem, .. } => {
            pointer_fits(alloc, structs, blocks, param.marked, elem, arg)
        }
    }
}

fn integer_fits(marked: bool, ty: IntType, arg: Arg) -> bool
    ensures { result ≡ fits_integer marked ty arg }
{
    match arg {
        Arg::Number(number) => is_in_range(ty, number),
        Arg::Sealed(_) => marked,
        Arg::Null | Arg::At { .. } => false,
    }
}

fn pointer_fits(
    alloc: Global,
    structs: &[StructInfo],
    blocks: &[Block],
    marked: bool,
    elem: Elem,
    arg: Arg,
) -> Result<bool, AllocError>
    requires known { IsTrue (is_elem (length structs.now) elem) }
    requires earlier { IsTrue (name_earlier 0 structs.now) }
    ensures { IfOk result (λ is. is ≡ fits_pointer blocks.now marked (leaves_of structs.now elem) arg) }
{
    match arg {
        Arg::Number(_) | Arg::Sealed(_) => Ok(false),
        Arg::Null => Ok(true),
        Arg::At {
            block,
            base,
            count,
            index,
        } => {
            let block = block as usize;
            if block >= blocks.len() || count < 1 || count < index {
                return Ok(false);
            }
            let leaves = element_cells(alloc, structs, elem)?;
            let cells = blocks[block].as_slice();
            Ok(block_fits(marked, leaves.as_slice(), base, count, cells))
        }
    }
}

fn block_fits(
    marked: bool,
    leaves: &[Leaf],
    base: u32,
    count: u32,
    cells: &[(IntType, WireCell)],
) -> bool
    ensures { result ≡ fits_block marked leaves.now base count cells.now }
{
    ends_within(leaves.len(), base, count, cells.len())
        && range_fits(marked, leaves, count, &cells[base as usize..])
}

fn range_fits(marked: bool, leaves: &[Leaf], count: u32, cells: &[(IntType, WireCell)]) -> bool
    ensures { result ≡ fits_range marked (repeated count leaves.now) cells.now }
{
    let mut rest = cells;
    for _ in 0..count {
        if rest.len() < leaves.len() {
            return false;
        }
        let (element, others) = rest.split_at(leaves.len());
        if !element_fits(marked, leaves, element) {
            return false;
        }
        rest = others;
    }
    true
}

fn element_fits(marked: bool, leaves: &[Leaf], cells: &[(IntType, WireCell)]) -> bool
    ensures { result ≡ list_all (λ given. fits_leaf marked given.0 given.1) (zip leaves.now cells.now) }
{
    leaves
        .iter()
        .zip(cells)
        .all(|(leaf, cell)| leaf_fits(marked, leaf, cell))
}

fn leaf_fits(marked: bool, leaf: &Leaf, cell: &(IntType, WireCell)) -> bool
    ensures { result ≡ fits_leaf marked leaf.now cell.now }
{
    same_int(leaf.ty, cell.0) && stands(marked || leaf.marked, cell.1)
}

fn stands(secret: bool, cell: WireCell) -> bool
    ensures { result ≡ may_stand secret cell }
{
    match cell {
        WireCell::Number(_) => true,
        WireCell::Sealed(_) => secret,
    }
}

// Whether each block is one into which an argument points.
fn are_named(args: &[Arg], blocks: &[Block]) -> bool
    ensures { result ≡ each_named args.now 0 blocks.now }
{
    for k in 0..blocks.len() {
        if !is_named(args, k) {
            return false;
        }
    }
    true
}

fn is_named(args: &[Arg], k: usize) -> bool
    ensures { result ≡ list_any (points_into k) args.now }
{
    args.iter().any(|arg| leads_into(k, *arg))
}

fn leads_into(k: usize, arg: Arg) -> bool
    ensures { result ≡ points_into k arg }
{
    match arg {
        Arg::Number(_) | Arg::Sealed(_) | Arg::Null => false,
        Arg::At { block, .. } => block as usize == k,
    }
}

fn all_typed(blocks: &[Block]) -> bool
    ensures { result ≡ list_all (list_all is_typed) blocks.now }
{
    blocks.iter().all(|block| are_typed(block.as_slice()))
}

fn are_typed(cells: &[(IntType, WireCell)]) -> bool
    ensures { result ≡ list_all is_typed cells.now }
{
    cells.iter().all(|cell| is_number(cell.0, cell.1))
}

fn is_number(ty: IntType, cell: WireCell) -> bool
    ensures { result ≡ is_number_of ty cell }
{
    match cell {
        WireCell::Number(number) => is_in_range(ty, number),
        WireCell::Sealed(_) => true,
    }
}
