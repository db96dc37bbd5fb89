// The lines of refusals.
ghost use Rattle.std.specs.Prelude.{◌≡◌, IfOk};
ghost use Rattle.stages.specs.Seen.{view_refusal};
ghost use Rattle.refusal_lines.specs.Lines.{lines_of, policy_line};

use crate::flow_faults::flow_lines;
use crate::host_faults::host_lines;
use front_end::{FrontError, front_lines};
use policy::PolicyFault;
use stages::Refusal;
use std::alloc::{AllocError, Global};

// The line of a policy's first fault.
fn policy_line(alloc: Global, fault: PolicyFault) -> Result<Vec<u8>, AllocError>
    ensures { IfOk result (λ line. line.items ≡ policy_line fault) }
{
    let mut line = fault.report_line(alloc)?;
    line.push(b'\n')?;
    Ok(line)
}

/// The lines that report a refusal. Time is linear in what is written.
///
/// # Errors
///
/// Want of memory; more than [`MOST_BYTES`](stages::MOST_BYTES) of lines of flows are that too.
pub fn refusal_lines(alloc: Global, refusal: Refusal) -> Result<Vec<u8>, AllocError>
    ensures { IfOk result (λ lines. lines.items ≡ lines_of (view_refusal refusal)) }
{
    match refusal {
        Refusal::Lex(fault) => front_lines(alloc, FrontError::Lex(fault)),
        Refusal::Parse(fault) => front_lines(alloc, FrontError::Parse(fault)),
        Refusal::Types(faults) => front_lines(alloc, FrontError::Types(faults)),
        Refusal::Host(program, faults) => host_lines(alloc, &program, faults.as_slice()),
        Refusal::Policy(fault) => policy_line(alloc, fault),
        Refusal::Flow(_, faults) => flow_lines(alloc, faults.as_slice()),
        Refusal::Input => Vec::from_slice(alloc, b"input 1 TooLong\n"),
    }
}
