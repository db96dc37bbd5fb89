// The lines of the faults of a host table.
ghost use Rattle.std.specs.Prelude.{◌≡◌, ◌++◌, IfOk, OnOk};
ghost use Rattle.typed_tree.specs.TypedView.{view_typed};
ghost use Rattle.refusal_lines.specs.HostLines.{host_line, host_lines};

use host_table::HostFault;
use std::alloc::{AllocError, Global};
use typed_tree::Typed;

/// The lines of a host table's faults for this program, one for each fault in the order given. Time and
/// memory are linear in what is written.
///
/// # Errors
///
/// Want of memory alone.
pub(crate) fn host_lines(
    alloc: Global,
    program: &Typed,
    faults: &[HostFault],
) -> Result<Vec<u8>, AllocError>
    ensures { IfOk result (λ lines. lines.items ≡ host_lines (view_typed program.now) faults.now) }
{
    let mut lines = Vec::new(alloc);
    for fault in faults {
        push_host_line(alloc, program, *fault, &mut lines)?;
    }
    Ok(lines)
}

fn push_host_line(
    alloc: Global,
    program: &Typed,
    fault: HostFault,
    lines: &mut Vec<u8>,
) -> Result<(), AllocError>
    ensures { OnOk result (lines.new.items ≡ lines.old.items ++ host_line (view_typed program.now) fault) }
{
    let line = fault.report_line(alloc, program)?;
    lines.extend_from_slice(&line)?;
    lines.push(b'\n')?;
    Ok(())
}
