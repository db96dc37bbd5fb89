// The blocks that a call brings.
ghost use Rattle.std.specs.Prelude.{◌≡◌, ◌+◌, ◌≤◌, IfOk, OnOk, length};
ghost use Rattle.marshalling.specs.Replies.{block_types, types_of};
ghost use Rattle.pt_core.specs.CodeTree.{ProgramTree};
ghost use Rattle.pt_core.specs.Steps as s;
ghost use Rattle.core_machine.specs.Machines.{Shown};
ghost use Rattle.pair_meaning.specs.Serving.{with_brought};
ghost use Rattle.monitor_soundness_law.specs.ServingLaws.{emptied};
ghost use Rattle.monitor_interp.specs.Bringing.{AreAlike};

use block_memory::{BlockName, Cell};
use core_machine::Machine;
use pt_base::{IntType, Listed};
use std::alloc::{AllocError, Global};
use wire::{Block, WireCell};

/// Puts blocks with these cells under the names of received ones, of which the first has the number k.
pub(crate) fn put_blocks(
    machine: &mut Machine,
    alloc: Global,
    k: u8,
    blocks: &[Block],
    cells: &[Listed<Cell>],
) -> Result<(), AllocError>
    requires alike { AreAlike blocks.now cells.now }
    requires few { k + length blocks.now ≤ 255 }
    ensures { OnOk result ((program : ProgramTree) (m : s.Machine) → Shown program machine.old m →
        Shown program machine.new (s.with_blocks (with_brought k (types_of blocks.now) cells.now m.blocks) m)) }
{
    let [block, more @ ..] = blocks else {
        return Ok(());
    };
    let [values, rest @ ..] = cells else {
        return Ok(());
    };
    let types = types_in(alloc, block.as_slice())?;
    machine.put_block(BlockName::Received(k), types.as_slice(), values.as_slice())?;
    put_blocks(machine, alloc, k + 1, more, rest)?;
    Ok(())
}

// The types of a block's cells.
fn types_in(alloc: Global, block: &[(IntType, WireCell)]) -> Result<Vec<IntType>, AllocError>
    ensures { IfOk result (λ v. v.items ≡ block_types block.now) }
{
    block.iter().map(|cell| cell.0).collect(alloc)
}

/// Takes so many received blocks away, of which the first has the number k.
pub(crate) fn take_blocks(machine: &mut Machine, k: u8, count: u8) -> Result<(), AllocError>
    requires { k + count ≤ 255 }
    ensures { OnOk result ((program : ProgramTree) (m : s.Machine) → Shown program machine.old m →
        Shown program machine.new (s.with_blocks (emptied k count m.blocks) m)) }
{
    if count == 0 {
        return Ok(());
    }
    machine.put_block(BlockName::Received(k), &[], &[])?;
    take_blocks(machine, k + 1, count - 1)?;
    Ok(())
}
