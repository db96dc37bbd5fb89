// The blocks that explain refusals.
ghost use Rattle.std.specs.Prelude.{IfOk};
ghost use Rattle.stages.specs.Seen.{view_refusal};
ghost use Rattle.pair_explaining.specs.PairSeen.{view_given, view_names};
ghost use Rattle.pair_explaining.specs.RefusalBlocks.{AreBlocks, IsTold};

use crate::files::FileNames;
use crate::host_blocks::host_blocks;
use crate::policy_blocks::policy_block;
use explaining::{flow_fault_blocks, lex_block, parse_block, type_blocks};
use stages::{GivenTexts, Refusal};
use std::alloc::{AllocError, Global};

/// The blocks that explain why texts in files of these names are refused: each fault with its line and column and with
/// its line of the text. Time is linear in the texts and in what is written, but for putting faults in order and finding
/// their lines.
///
/// # Errors
///
/// Want of memory; more than [`MOST_BYTES`](stages::MOST_BYTES) of blocks are that too.
pub fn explain_refusal(
    alloc: Global,
    names: FileNames<'_>,
    given: GivenTexts<'_>,
    refusal: &Refusal,
) -> Result<Vec<u8>, AllocError>
    requires { IsTold (view_refusal refusal.now) }
    ensures { IfOk result (λ text. AreBlocks (view_names names.entry) (view_given given.entry) (view_refusal refusal.now) text.items) }
{
    match refusal {
        Refusal::Lex(fault) => lex_block(alloc, names.program, given.program, *fault),
        Refusal::Parse(fault) => parse_block(alloc, names.program, given.program, *fault),
        Refusal::Types(faults) => {
            type_blocks(alloc, names.program, given.program, faults.as_slice())
        }
        Refusal::Host(t, faults) => {
            host_blocks(alloc, names, given.program, t, faults.as_slice())
        }
        Refusal::Policy(fault) => policy_block(alloc, names.policy, given.policy, *fault),
        Refusal::Flow(t, faults) => {
            flow_fault_blocks(alloc, names.program, given.program, t, faults.as_slice())
        }
        Refusal::Input => unreachable!(),
    }
}
