// What a call leaves that doesn't wait for its reply.
ghost use Rattle.std.specs.Prelude.{◌≡◌, ◌≤◌, ◌^◌, ◌↔◌, false, true, IsTrue, IfOk, None, OnErr, length};
ghost use Rattle.std.specs.List.{list_any};
ghost use Rattle.machine_memory.specs.Memory.{blocks_of};
ghost use Rattle.marshalling.specs.Leaves.{has_structs};
ghost use Rattle.marshalling.specs.Packing.{points};
ghost use Rattle.marshalling.specs.Replies.{has_plain, result_places};
ghost use Rattle.marshalling.specs.Returns.{AreAsLong, placed};
ghost use Rattle.marshalling.specs.Taking.{after_posting, are_whole, call_places};

use crate::packing::any_points;
use crate::returned::Returned;
use crate::taking::{plan_of, take_planned, take_result};
use block_memory::Cell;
use handle_store::Names;
use machine_memory::MachineMemory;
use pt_tree::Signature;
use std::alloc::{AllocError, Global};
use typed_tree::StructInfo;
use wire::{Cells, ReplyBody};

/// What taking the reply to a call with these arguments, at most 8, would answer, before it comes:
/// handles for the result and for the cells that come back.
///
/// Neither the result nor a cell comes back as a number. Each block that an argument points into
/// has as many types as cells, and at most 65,536; and the new handles don't bring those given over
/// 2^63. There is no result exactly where the signature has none. After want of memory no handle is
/// given, and memory can't be wanting where no argument points into a block. Its time is that of
/// the cells of the blocks, times the arguments that come back.
pub fn post_results(
    alloc: Global,
    names: &mut Names,
    memory: &MachineMemory,
    structs: &[StructInfo],
    sig: &Signature,
    args: &[Cell],
) -> Result<Returned, AllocError>
    requires structs { IsTrue (has_structs structs.now sig.now.params) }
    requires few { length args.now ≤ 8 }
    requires whole { IsTrue (are_whole (blocks_of memory.now) args.now) }
    requires no_result { has_plain (result_places sig.now sig.now.result) ≡ false }
    requires no_cell { has_plain (call_places (blocks_of memory.now) structs.now sig.now.params args.now) ≡ false }
    requires room { (after_posting names.old (blocks_of memory.now) structs.now sig.now args.now).next ≤ 2 ^ 63 }
    ensures posted { IfOk result (λ r. placed r names.new (blocks_of memory.now) ≡ after_posting names.old (blocks_of memory.now) structs.now sig.now args.now) }
    ensures long { IfOk result (λ r. AreAsLong (blocks_of memory.now) r.blocks.items) }
    ensures none { IfOk result (λ r. (r.value ≡ None) ↔ (sig.now.result ≡ None)) }
    ensures err { OnErr result (names.new ≡ names.old) }
    ensures sure { OnErr result (list_any points args.now ≡ true) }
{
    if !any_points(args) {
        let value = take_result(names, sig, None);
        return Ok(Returned {
            value,
            blocks: Vec::new(alloc),
        });
    }
    post_blocks(alloc, names, memory, structs, sig, args)
}

// The same where an argument may point into a block.
fn post_blocks(
    alloc: Global,
    names: &mut Names,
    memory: &MachineMemory,
    structs: &[StructInfo],
    sig: &Signature,
    args: &[Cell],
) -> Result<Returned, AllocError>
    requires structs { IsTrue (has_structs structs.now sig.now.params) }
    requires few { length args.now ≤ 8 }
    requires whole { IsTrue (are_whole (blocks_of memory.now) args.now) }
    requires no_result { has_plain (result_places sig.now sig.now.result) ≡ false }
    requires no_cell { has_plain (call_places (blocks_of memory.now) structs.now sig.now.params args.now) ≡ false }
    requires room { (after_posting names.old (blocks_of memory.now) structs.now sig.now args.now).next ≤ 2 ^ 63 }
    ensures posted { IfOk result (λ r. placed r names.new (blocks_of memory.now) ≡ after_posting names.old (blocks_of memory.now) structs.now sig.now args.now) }
    ensures long { IfOk result (λ r. AreAsLong (blocks_of memory.now) r.blocks.items) }
    ensures err { OnErr result (names.new ≡ names.old) }
{
    let plan = plan_of(alloc, structs, sig.params.as_slice(), args)?;
    let unknown = ReplyBody {
        result: None,
        cells: Cells::new(Vec::new(alloc)),
    };
    take_planned(alloc, names, memory, &plan, sig, &unknown)
}
