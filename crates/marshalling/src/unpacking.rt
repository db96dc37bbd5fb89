// What the receiver of a call makes of its body.
ghost use Rattle.std.specs.Prelude.{◌≡◌, Err, IsTrue, IfOk, map, slice_get};
ghost use Rattle.block_memory.specs.declared.cell.Cell.TheVariants.{Int};
ghost use Rattle.marshalling.specs.declared.fault.BadCall.TheVariants.{Memory};
ghost use Rattle.marshalling.specs.Handles.{Answers, Opens, argument_fault, arguments_fault, block_fault, blocks_fault, cell_fault, entry_fault, handle_fault, inputs_unless, stored, unpacked, unpacked_argument, unpacked_cell, unpacking};
ghost use Rattle.marshalling.specs.Leaves.{has_structs};
ghost use Rattle.marshalling.specs.Shape.{all_within};

use crate::fault::BadCall;
use crate::inputs::Inputs;
use crate::shape::is_shaped;
use block_memory::{BlockName, Cell, Pointer};
use handle_store::Store;
use pt_base::{IntType, Listed, same_int};
use pt_tree::{Param, ParamKind, Signature};
use std::alloc::{AllocError, Global};
use typed_tree::StructInfo;
use wire::{Arg, Block, CallBody, WireCell};

/// The arguments and blocks of a call for the function that it calls, each handle replaced by the
/// value that the store keeps for it.
///
/// A body that isn't one for the signature is `Shape`, whatever its handles are. Else the first
/// faulty handle, by arguments and then by blocks, is `BadHandle` where the store has no such
/// value, and `WrongType` where the value's type isn't the parameter's or the cell's.
///
/// Memory can be wanting only where each pointer lies in its block: a struct's cells are listed
/// only where the body has as many.
pub fn unpack_args(
    alloc: Global,
    store: &Store,
    structs: &[StructInfo],
    sig: &Signature,
    body: &CallBody,
) -> Result<Inputs, BadCall>
    requires { IsTrue (has_structs structs.now sig.now.params) }
    ensures answer { Answers result (unpacking store.now structs.now sig.now.params body.now) }
    ensures within { result ≡ Err Memory → IsTrue (all_within structs.now body.now.blocks sig.now.params body.now.args) }
{
    let params = sig.params.as_slice();
    match is_shaped(alloc, structs, params, body) {
        Ok(true) => replaced(alloc, store, params, body),
        Ok(false) => Err(BadCall::Shape),
        Err(_) => Err(BadCall::Memory),
    }
}

// The arguments and blocks of a body, or its first faulty handle.
fn replaced(
    alloc: Global,
    store: &Store,
    params: &[Param],
    body: &CallBody,
) -> Result<Inputs, BadCall>
    ensures { Answers result (inputs_unless (handle_fault store.now params.now body.now) (unpacked store.now body.now)) }
{
    let args = body.args.as_slice();
    if let Some(fault) = faulty_argument(store, params, args) {
        return Err(fault);
    }
    match open_blocks(alloc, store, body.blocks.as_slice()) {
        Ok(blocks) => match open_arguments(alloc, store, args) {
            Ok(args) => Ok(Inputs {
                args: Listed::new(args),
                blocks: Listed::new(blocks),
            }),
            Err(_) => Err(BadCall::Memory),
        },
        Err(fault) => Err(fault),
    }
}

// The fault of the first faulty handle among the arguments.
fn faulty_argument(store: &Store, params: &[Param], args: &[Arg]) -> Option<BadCall>
    ensures { result ≡ arguments_fault store.now params.now args.now }
{
    for (i, param) in params.iter().enumerate() {
        if i >= args.len() {
            return None;
        }
        if let Some(fault) = fault_of(store, param.kind, args[i]) {
            return Some(fault);
        }
    }
    None
}

fn fault_of(store: &Store, kind: ParamKind, arg: Arg) -> Option<BadCall>
    ensures { result ≡ argument_fault store.now kind arg }
{
    match kind {
        ParamKind::Int(ty) => match arg {
            Arg::Sealed(handle) => fault_at(store, ty, handle),
            Arg::Number(_) | Arg::Null | Arg::At { .. } => None,
        },
        ParamKind::Ptr { .. } => None,
    }
}

fn fault_at(store: &Store, ty: IntType, handle: u64) -> Option<BadCall>
    ensures { result ≡ entry_fault ty handle (slice_get store.now handle) }
{
    match store.get(handle) {
        Some((kept, _)) => {
            if same_int(ty, kept) {
                None
            } else {
                Some(BadCall::WrongType(handle))
            }
        }
        None => Some(BadCall::BadHandle(handle)),
    }
}

fn open_arguments(alloc: Global, store: &Store, args: &[Arg]) -> Result<Vec<Cell>, AllocError>
    ensures { IfOk result (λ v. v.items ≡ map (unpacked_argument store.now) args.now) }
{
    args.iter()
        .map(|arg| open_argument(store, *arg))
        .collect(alloc)
}

fn open_argument(store: &Store, arg: Arg) -> Cell
    ensures { result ≡ unpacked_argument store.now arg }
{
    match arg {
        Arg::Number(number) => Cell::Int(number),
        Arg::Sealed(handle) => kept_value(store, handle),
        Arg::Null => Cell::Ptr(Pointer::Null),
        Arg::At {
            block,
            base,
            count,
            index,
        } => Cell::Ptr(Pointer::At {
            block: BlockName::Received(block),
            base,
            count,
            index,
        }),
    }
}

// The value that the handle stands for, 0 where there is none.
fn kept_value(store: &Store, handle: u64) -> Cell
    ensures { result ≡ Int (stored store.now handle) }
{
    match store.get(handle) {
        Some((_, number)) => Cell::Int(number),
        None => Cell::Int(0),
    }
}

fn open_blocks(alloc: Global, store: &Store, blocks: &[Block]) -> Result<Vec<Listed<Cell>>, BadCall>
    ensures { Opens (λ v. v.items) result (blocks_fault store.now blocks.now) (map (map (unpacked_cell store.now)) blocks.now) }
{
    let mut opened = Vec::with_capacity(alloc, blocks.len())?;
    for block in blocks {
        match open_block(alloc, store, block.as_slice()) {
            Ok(cells) => opened.push(Listed::new(cells))?,
            Err(fault) => return Err(fault),
        }
    }
    Ok(opened)
}

fn open_block(
    alloc: Global,
    store: &Store,
    block: &[(IntType, WireCell)],
) -> Result<Vec<Cell>, BadCall>
    ensures { Opens (λ v. v.items) result (block_fault store.now block.now) (map (unpacked_cell store.now) block.now) }
{
    let mut cells = Vec::with_capacity(alloc, block.len())?;
    for cell in block {
        match open_cell(store, cell) {
            Ok(cell) => cells.push(cell)?,
            Err(fault) => return Err(fault),
        }
    }
    Ok(cells)
}

fn open_cell(store: &Store, cell: &(IntType, WireCell)) -> Result<Cell, BadCall>
    ensures { Opens (λ c. c) result (cell_fault store.now cell.now) (unpacked_cell store.now cell.now) }
{
    match cell.1 {
        WireCell::Number(number) => Ok(Cell::Int(number)),
        WireCell::Sealed(handle) => open_handle(store, cell.0, handle),
    }
}

fn open_handle(store: &Store, ty: IntType, handle: u64) -> Result<Cell, BadCall>
    ensures { Opens (λ c. c) result (entry_fault ty handle (slice_get store.now handle)) (Int (stored store.now handle)) }
{
    match store.get(handle) {
        Some((kept, number)) => {
            if same_int(ty, kept) {
                Ok(Cell::Int(number))
            } else {
                Err(BadCall::WrongType(handle))
            }
        }
        None => Err(BadCall::BadHandle(handle)),
    }
}
