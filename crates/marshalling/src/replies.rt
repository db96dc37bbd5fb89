// What the monitor answers to a call.
ghost use Rattle.std.specs.Prelude.{◌≡◌, ◌++◌, ◌≤◌, IsTrue, IfOk, OnOk, length, map, option_to_list, slice_get};
ghost use Rattle.std.specs.List.{AllByRecursion};
ghost use Rattle.pt_base.specs.IntTypes.{InRange};
ghost use Rattle.block_memory.specs.declared.cell.BlockName.TheVariants.{Received};
ghost use Rattle.machine_memory.specs.Memory.{blocks_of};
ghost use Rattle.wire.specs.Limits.{IsBlock, IsCall};
ghost use Rattle.marshalling.specs.Leaves.{has_structs};
ghost use Rattle.marshalling.specs.Ranges.{crossing_among};
ghost use Rattle.marshalling.specs.Replies.{AreServed, HoldNumbers, HoldsNumber, IsResult, block_types, kept, kept_by, kept_results, number_in, packed_results, places_from, places_of, received, result_places, sent, sent_by, types_in, types_of};

use crate::copies::has_range;
use crate::crossing::Crossing;
use crate::range::Range;
use crate::ranges::{crossing_at, ranges_of, sealed_or_plain};
use block_memory::{BlockName, Cell, CellAt};
use handle_store::Store;
use machine_memory::MachineMemory;
use pt_base::IntType;
use pt_tree::Signature;
use std::alloc::{AllocError, Global};
use typed_tree::StructInfo;
use wire::{Block, CallBody, Cells, ReplyBody, WireCell};

/// The reply to a call with this body, which keeps the counts of the format, where `blocks` has the
/// blocks that it sent as they are after the call, each with a number of its type in each cell, and
/// `value` is the result.
///
/// What comes back as a handle is added to the store, the result first, and then the cells by
/// block and position. Where memory is wanting, a part of it may have been.
pub fn pack_results(
    alloc: Global,
    store: &mut Store,
    structs: &[StructInfo],
    sig: &Signature,
    body: &CallBody,
    blocks: &MachineMemory,
    value: Option<i128>,
) -> Result<ReplyBody, AllocError>
    requires structs { IsTrue (has_structs structs.now sig.now.params) }
    requires counts { IsCall body.now }
    requires served { AreServed (blocks_of blocks.now) 0 (types_in body.now) }
    requires value { IsResult sig.now.result value }
    ensures reply { IfOk result (λ reply. reply ≡ packed_results (length store.old) structs.now sig.now body.now (blocks_of blocks.now) value) }
    ensures kept { OnOk result (store.new ≡ store.old ++ kept_results structs.now sig.now body.now (blocks_of blocks.now) value) }
{
    let ranges = ranges_of(alloc, structs, sig.params.as_slice(), body.args.as_slice())?;
    let result = pack_value(store, sig, value)?;
    let mut cells = Vec::new(alloc);
    pack_blocks(
        store,
        ranges.as_slice(),
        body.blocks.as_slice(),
        blocks,
        &mut cells,
    )?;
    Ok(ReplyBody {
        result,
        cells: Cells::new(cells),
    })
}

fn pack_value(
    store: &mut Store,
    sig: &Signature,
    value: Option<i128>,
) -> Result<Option<WireCell>, AllocError>
    requires { IsResult sig.now.result value }
    ensures sent { IfOk result (λ cell. cell ≡ slice_get (sent (length store.old) (result_places sig.now sig.now.result) (option_to_list value)) 0) }
    ensures kept { OnOk result (store.new ≡ store.old ++ kept (result_places sig.now sig.now.result) (option_to_list value)) }
{
    match sig.result {
        Some(ty) => match value {
            Some(number) => {
                let crossing = sealed_or_plain(!sig.declassify);
                pack_number(store, crossing, ty, number)
            }
            None => Ok(None),
        },
        None => Ok(None),
    }
}

// The cell that is sent of a number, if one is.
fn pack_number(
    store: &mut Store,
    crossing: Crossing,
    ty: IntType,
    number: i128,
) -> Result<Option<WireCell>, AllocError>
    requires { InRange ty number }
    ensures sent { IfOk result (λ cell. option_to_list cell ≡ sent_by crossing (length store.old) number) }
    ensures kept { OnOk result (store.new ≡ store.old ++ kept_by crossing ty number) }
{
    match crossing {
        Crossing::Stays => Ok(None),
        Crossing::Plain => Ok(Some(WireCell::Number(number))),
        Crossing::Sealed => {
            let handle = store.add(ty, number)?;
            Ok(Some(WireCell::Sealed(handle.number())))
        }
    }
}

// Adds what is sent of a number.
fn add_number(
    store: &mut Store,
    crossing: Crossing,
    ty: IntType,
    number: i128,
    cells: &mut Vec<WireCell>,
) -> Result<(), AllocError>
    requires { InRange ty number }
    ensures sent { OnOk result (cells.new.items ≡ cells.old.items ++ sent_by crossing (length store.old) number) }
    ensures kept { OnOk result (store.new ≡ store.old ++ kept_by crossing ty number) }
{
    match crossing {
        Crossing::Stays => {}
        Crossing::Plain => cells.push(WireCell::Number(number))?,
        Crossing::Sealed => {
            let handle = store.add(ty, number)?;
            cells.push(WireCell::Sealed(handle.number()))?;
        }
    }
    Ok(())
}

// Adds what is sent of a cell, which has a number.
fn add_cell(
    store: &mut Store,
    crossing: Crossing,
    ty: IntType,
    cell: Cell,
    cells: &mut Vec<WireCell>,
) -> Result<(), AllocError>
    requires { HoldsNumber ty cell }
    ensures sent { OnOk result (cells.new.items ≡ cells.old.items ++ sent_by crossing (length store.old) (number_in cell)) }
    ensures kept { OnOk result (store.new ≡ store.old ++ kept_by crossing ty (number_in cell)) }
{
    match cell {
        Cell::Int(number) => add_number(store, crossing, ty, number, cells),
        Cell::Ptr(_) | Cell::Sealed(_) => Ok(()),
    }
}

// Adds what is sent of all blocks.
fn pack_blocks(
    store: &mut Store,
    ranges: &[Range],
    blocks: &[Block],
    memory: &MachineMemory,
    cells: &mut Vec<WireCell>,
) -> Result<(), AllocError>
    requires counts { AllByRecursion IsBlock blocks.now }
    requires served { AreServed (blocks_of memory.now) 0 (types_of blocks.now) }
    ensures sent { OnOk result (cells.new.items ≡ cells.old.items
        ++ sent (length store.old) (places_of (crossing_among ranges.now) 0 (types_of blocks.now))
        (received (blocks_of memory.now) 0 (types_of blocks.now))) }
    ensures kept { OnOk result (store.new ≡ store.old
        ++ kept (places_of (crossing_among ranges.now) 0 (types_of blocks.now))
        (received (blocks_of memory.now) 0 (types_of blocks.now))) }
{
    for (k, block) in blocks.iter().enumerate() {
        pack_cells(store, ranges, k as u8, block.as_slice(), memory, cells)?;
    }
    Ok(())
}

// Adds what is sent of the block k: nothing where no range lies in it.
fn pack_cells(
    store: &mut Store,
    ranges: &[Range],
    k: u8,
    block: &[(IntType, WireCell)],
    memory: &MachineMemory,
    cells: &mut Vec<WireCell>,
) -> Result<(), AllocError>
    requires few { length block.now ≤ 65_536 }
    requires served { HoldNumbers (block_types block.now) (blocks_of memory.now (Received k)).cells }
    ensures sent { OnOk result (cells.new.items ≡ cells.old.items
        ++ sent (length store.old) (places_from (crossing_among ranges.now) k 0 (block_types block.now))
        (map number_in (blocks_of memory.now (Received k)).cells)) }
    ensures kept { OnOk result (store.new ≡ store.old
        ++ kept (places_from (crossing_among ranges.now) k 0 (block_types block.now))
        (map number_in (blocks_of memory.now (Received k)).cells)) }
{
    if !has_range(ranges, k as usize) {
        return Ok(());
    }
    add_cells(store, ranges, k, block, memory, cells)
}

// The same, cell by cell.
fn add_cells(
    store: &mut Store,
    ranges: &[Range],
    k: u8,
    block: &[(IntType, WireCell)],
    memory: &MachineMemory,
    cells: &mut Vec<WireCell>,
) -> Result<(), AllocError>
    requires few { length block.now ≤ 65_536 }
    requires served { HoldNumbers (block_types block.now) (blocks_of memory.now (Received k)).cells }
    ensures sent { OnOk result (cells.new.items ≡ cells.old.items
        ++ sent (length store.old) (places_from (crossing_among ranges.now) k 0 (block_types block.now))
        (map number_in (blocks_of memory.now (Received k)).cells)) }
    ensures kept { OnOk result (store.new ≡ store.old
        ++ kept (places_from (crossing_among ranges.now) k 0 (block_types block.now))
        (map number_in (blocks_of memory.now (Received k)).cells)) }
{
    for (i, typed) in block.iter().enumerate() {
        let crossing = crossing_at(ranges, k as usize, i);
        let place = CellAt {
            block: BlockName::Received(k),
            cell: i as u32,
        };
        add_cell(store, crossing, typed.0, memory.cell(place), cells)?;
    }
    Ok(())
}
