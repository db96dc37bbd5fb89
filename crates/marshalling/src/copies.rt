// The blocks that come back, as they were before.
ghost use Rattle.std.specs.Prelude.{◌≡◌, ◌++◌, [], ◌∷◌, IsTrue, IfOk, OnOk, map, nat_eq};
ghost use Rattle.std.specs.List.{list_all};
ghost use Rattle.machine_memory.specs.Memory.{blocks_of};
ghost use Rattle.marshalling.specs.Returns.{copied, is_ranged, seen};
ghost use Rattle.marshalling.specs.Taking.{is_whole};

use crate::range::Range;
use crate::returned::ReturnedBlock;
use block_memory::{BlockName, Cell, CellAt};
use machine_memory::MachineMemory;
use std::alloc::{AllocError, Global};

/// Of the blocks with these names those that have a range, with their cells.
pub(crate) fn copies(
    alloc: Global,
    memory: &MachineMemory,
    ranges: &[Range],
    targets: &[BlockName],
) -> Result<Vec<ReturnedBlock>, AllocError>
    requires { IsTrue (list_all (λ name. is_whole (blocks_of memory.now name)) targets.now) }
    ensures { IfOk result (λ v. map seen v.items ≡ copied (is_ranged ranges.now) (blocks_of memory.now) 0 targets.now) }
{
    let mut blocks = Vec::new(alloc);
    for (number, name) in targets.iter().enumerate() {
        add_copy(alloc, memory, ranges, number, *name, &mut blocks)?;
    }
    Ok(blocks)
}

// Adds the block with this number and name, if it has a range.
fn add_copy(
    alloc: Global,
    memory: &MachineMemory,
    ranges: &[Range],
    number: usize,
    name: BlockName,
    blocks: &mut Vec<ReturnedBlock>,
) -> Result<(), AllocError>
    requires { IsTrue (is_whole (blocks_of memory.now name)) }
    ensures { OnOk result (map seen blocks.new.items ≡ map seen blocks.old.items ++ copied (is_ranged ranges.now) (blocks_of memory.now) number (name ∷ [])) }
{
    if !has_range(ranges, number) {
        return Ok(());
    }
    let block = copy_of(alloc, memory, number, name)?;
    blocks.push(block)?;
    Ok(())
}

/// Whether a range lies in the block of this number.
pub(crate) fn has_range(ranges: &[Range], number: usize) -> bool
    ensures { result ≡ is_ranged ranges.now number }
{
    ranges.iter().any(|range| lies_in(range, number))
}

fn lies_in(range: &Range, number: usize) -> bool
    ensures { result ≡ nat_eq range.now.block number }
{
    range.block as usize == number
}

fn copy_of(
    alloc: Global,
    memory: &MachineMemory,
    number: usize,
    name: BlockName,
) -> Result<ReturnedBlock, AllocError>
    requires { IsTrue (is_whole (blocks_of memory.now name)) }
    ensures { IfOk result (λ block. seen block ≡ (number, name, (blocks_of memory.now name).cells)) }
{
    let cells = cells_of(alloc, memory, name)?;
    Ok(ReturnedBlock {
        number,
        name,
        cells,
    })
}

fn cells_of(alloc: Global, memory: &MachineMemory, name: BlockName) -> Result<Vec<Cell>, AllocError>
    requires { IsTrue (is_whole (blocks_of memory.now name)) }
    ensures { IfOk result (λ v. v.items ≡ (blocks_of memory.now name).cells) }
{
    let count = memory.count(name);
    let mut cells = Vec::with_capacity(alloc, count)?;
    for i in 0..count {
        let place = CellAt {
            block: name,
            cell: i as u32,
        };
        cells.push(memory.cell(place))?;
    }
    Ok(cells)
}
