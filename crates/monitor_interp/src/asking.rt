// Calls of hosts.
ghost use Rattle.std.specs.Prelude.{◌≡◌, IfOk, IsTrue, map};
ghost use Rattle.typed_tree.specs.WellFormed.{are_rising};
ghost use Rattle.host_table.specs.Hosts.{hosts_of};
ghost use Rattle.monitor_interp.specs.Gates.{heard_answer, heard_of};

use crate::marks::{Mark, host_at};
use host_table::Host;
use pt_base::FnId;
use std::alloc::AllocError;

/// A host answers, and what it writes is appended. A number that the program doesn't have answers 0 and writes nothing; no call of
/// a well formed program goes to one.
pub(crate) fn asked(
    hosts: &mut Host,
    marks: &[Mark],
    f: FnId,
    args: &[i128],
    written: &mut Vec<u8>,
) -> Result<Option<i128>, AllocError>
    requires { IsTrue (are_rising 0 (map (λ m. m.number) marks.now)) }
    ensures { IfOk result (λ answer. heard_answer f.0 args.now (heard_of (hosts_of hosts.old) written.old.items marks.now) ≡ (answer, heard_of (hosts_of hosts.new) written.new.items marks.now)) }
{
    match host_at(marks, f) {
        Some(_) => {
            let answer = hosts.answer(f, args, written)?;
            Ok(answer)
        }
        None => Ok(Some(0)),
    }
}
