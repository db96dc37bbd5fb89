// Calls of hosts.
ghost use Rattle.std.specs.Prelude.{◌≡◌, IfOk};
ghost use Rattle.host_table.specs.Hosts.{hosts_of};
ghost use Rattle.original.specs.MachineRunHostGates.{heard_answer, heard_of};

use host_table::Host;
use pt_base::FnId;
use std::alloc::AllocError;

/// A host answers, and what it writes is appended. A number past the program's functions answers 0 and writes
/// nothing, as each does that no host has; no call of a typed program goes to one.
pub(crate) fn asked(
    hosts: &mut Host,
    is_host: &[bool],
    f: FnId,
    args: &[i128],
    written: &mut Vec<u8>,
) -> Result<Option<i128>, AllocError>
    ensures { IfOk result (λ answer. heard_answer f.0 args.now (heard_of (hosts_of hosts.old) written.old.items is_host.now) ≡ (answer, heard_of (hosts_of hosts.new) written.new.items is_host.now)) }
{
    let past = f.0 as usize >= is_host.len();
    if past {
        return Ok(Some(0));
    }
    let answer = hosts.answer(f, args, written)?;
    Ok(answer)
}
