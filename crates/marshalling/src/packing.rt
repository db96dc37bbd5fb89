// What a call sends.
ghost use Rattle.std.specs.Prelude.{◌≡◌, ◌+◌, ◌≤◌, length, map, vec_len, IfOk, IsTrue, OnOk};
ghost use Rattle.std.specs.List.{list_all, list_any};
ghost use Rattle.block_memory.specs.Blocks.{is_same_name};
ghost use Rattle.machine_memory.specs.Memory.{blocks_of};
ghost use Rattle.marshalling.specs.Packing.{is_among, names_of, number_of, packed, packed_argument, packed_arguments, packed_block, packed_cell, points, with_name, with_target};
ghost use Rattle.marshalling.specs.Taking.{are_whole, is_whole};

use block_memory::{BlockName, Cell, CellAt, Pointer};
use machine_memory::MachineMemory;
use pt_base::IntType;
use pt_tree::{Param, Signature};
use std::alloc::{AllocError, Global};
use wire::{Arg, Args, Block, Blocks, CallBody, WireCell};

/// The body of a call with these arguments, at most 8: they and the blocks that they point into,
/// each once, numbered by the first arguments that point into them. Each of these blocks has as many
/// types as cells, and at most 65,536.
pub fn pack_args(
    alloc: Global,
    memory: &MachineMemory,
    sig: &Signature,
    args: &[Cell],
) -> Result<CallBody, AllocError>
    requires few { length args.now ≤ 8 }
    requires whole { IsTrue (are_whole (blocks_of memory.now) args.now) }
    ensures { IfOk result (λ body. body ≡ packed (blocks_of memory.now) sig.now.params args.now) }
{
    let names = target_names(alloc, args)?;
    let arguments = arguments(alloc, names.as_slice(), sig.params.as_slice(), args)?;
    let blocks = blocks(alloc, memory, names.as_slice())?;
    Ok(CallBody {
        args: Args::new(arguments),
        blocks: Blocks::new(blocks),
    })
}

/// The blocks into which the arguments point, by first use.
pub(crate) fn target_names(alloc: Global, args: &[Cell]) -> Result<Vec<BlockName>, AllocError>
    ensures names { IfOk result (λ names. names.items ≡ names_of args.now) }
    ensures few { IfOk result (λ names. vec_len names ≤ length args.now) }
{
    let mut names = Vec::new(alloc);
    for cell in args {
        add_target(&mut names, *cell)?;
    }
    Ok(names)
}

fn add_target(names: &mut Vec<BlockName>, cell: Cell) -> Result<(), AllocError>
    ensures names { OnOk result (names.new.items ≡ with_target names.old.items cell) }
    ensures few { vec_len names.new ≤ vec_len names.old + 1 }
{
    match cell {
        Cell::Int(_) | Cell::Sealed(_) => Ok(()),
        Cell::Ptr(pointer) => match pointer {
            Pointer::Null => Ok(()),
            Pointer::At { block, .. } => add_name(names, block),
        },
    }
}

fn add_name(names: &mut Vec<BlockName>, name: BlockName) -> Result<(), AllocError>
    ensures names { OnOk result (names.new.items ≡ with_name names.old.items name) }
    ensures few { vec_len names.new ≤ vec_len names.old + 1 }
{
    if !stands_among(names.as_slice(), name) {
        names.push(name)?;
    }
    Ok(())
}

/// Whether the name is one of these.
pub(crate) fn stands_among(names: &[BlockName], name: BlockName) -> bool
    ensures { result ≡ is_among names.now name }
{
    names.iter().any(|n| same_name(*n, name))
}

fn same_name(a: BlockName, b: BlockName) -> bool
    ensures { result ≡ is_same_name a b }
{
    match a {
        BlockName::Local { depth, var } => match b {
            BlockName::Local { depth: d, var: v } => depth == d && var == v,
            BlockName::Global(_) | BlockName::Received(_) => false,
        },
        BlockName::Global(number) => match b {
            BlockName::Global(other) => number == other,
            BlockName::Local { .. } | BlockName::Received(_) => false,
        },
        BlockName::Received(number) => match b {
            BlockName::Received(other) => number == other,
            BlockName::Local { .. } | BlockName::Global(_) => false,
        },
    }
}

// The number that a block has among these.
fn place_among(names: &[BlockName], name: BlockName) -> u8
    requires { length names.now ≤ 8 }
    ensures { result ≡ number_of names.now name }
{
    for (k, n) in names.iter().enumerate() {
        if same_name(*n, name) {
            return k as u8;
        }
    }
    names.len() as u8
}

/// The arguments as they are sent, where these are the blocks' names by number.
pub(crate) fn arguments(
    alloc: Global,
    names: &[BlockName],
    params: &[Param],
    args: &[Cell],
) -> Result<Vec<Arg>, AllocError>
    requires { length names.now ≤ 8 }
    ensures { IfOk result (λ v. v.items ≡ packed_arguments names.now params.now args.now) }
{
    params
        .iter()
        .zip(args)
        .map(|(param, cell)| argument(names, param, *cell))
        .collect(alloc)
}

/// An argument as it is sent, where these are the blocks' names by number.
pub(crate) fn argument(names: &[BlockName], param: &Param, cell: Cell) -> Arg
    requires { length names.now ≤ 8 }
    ensures { result ≡ packed_argument names.now param.now cell }
{
    match cell {
        Cell::Int(number) => Arg::Number(number),
        Cell::Ptr(pointer) => match pointer {
            Pointer::Null => Arg::Null,
            Pointer::At {
                block,
                base,
                count,
                index,
            } => Arg::At {
                block: place_among(names, block),
                base,
                count,
                index,
            },
        },
        Cell::Sealed(handle) => {
            if param.marked {
                Arg::Sealed(handle.number())
            } else {
                Arg::Number(0)
            }
        }
    }
}

/// Whether one of them points into a block.
pub(crate) fn any_points(args: &[Cell]) -> bool
    ensures { result ≡ list_any points args.now }
{
    args.iter().any(|cell| is_place(*cell))
}

fn is_place(cell: Cell) -> bool
    ensures { result ≡ points cell }
{
    match cell {
        Cell::Int(_) | Cell::Sealed(_) => false,
        Cell::Ptr(pointer) => match pointer {
            Pointer::Null => false,
            Pointer::At { .. } => true,
        },
    }
}

// The blocks of these names.
fn blocks(
    alloc: Global,
    memory: &MachineMemory,
    names: &[BlockName],
) -> Result<Vec<Block>, AllocError>
    requires { IsTrue (list_all (λ name. is_whole (blocks_of memory.now name)) names.now) }
    ensures { IfOk result (λ v. v.items ≡ map (λ name. packed_block (blocks_of memory.now name)) names.now) }
{
    let mut blocks = Vec::new(alloc);
    for name in names {
        let cells = typed_cells(alloc, memory, *name)?;
        blocks.push(Block::new(cells))?;
    }
    Ok(blocks)
}

fn typed_cells(
    alloc: Global,
    memory: &MachineMemory,
    name: BlockName,
) -> Result<Vec<(IntType, WireCell)>, AllocError>
    requires { IsTrue (is_whole (blocks_of memory.now name)) }
    ensures { IfOk result (λ v. v.items ≡ packed_block (blocks_of memory.now name)) }
{
    let types = memory.types(name);
    let mut cells = Vec::with_capacity(alloc, types.len())?;
    for (i, ty) in types.iter().enumerate() {
        let place = CellAt {
            block: name,
            cell: i as u32,
        };
        cells.push((*ty, wire_cell(memory.cell(place))))?;
    }
    Ok(cells)
}

fn wire_cell(cell: Cell) -> WireCell
    ensures { result ≡ packed_cell cell }
{
    match cell {
        Cell::Int(number) => WireCell::Number(number),
        Cell::Ptr(_) => WireCell::Number(0),
        Cell::Sealed(handle) => WireCell::Sealed(handle.number()),
    }
}
