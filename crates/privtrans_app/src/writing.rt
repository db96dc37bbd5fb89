// What is written to out.
ghost use Rattle.std.specs.Prelude.{◌≡◌, ◌≤◌, ◌&&◌, true, length, nat_eq};
ghost use Rattle.privtrans_app.specs.Ending.{Puts, status_of, told};
ghost use Rattle.privtrans_app.specs.EndingSeen.{ending_seen, report_bytes, report_status};
ghost use Rattle.privtrans_app.specs.Once.{FailsOnce};

use crate::ending::{Ending, Report};
use crate::showing::Shown;
use pt_base::{Sink, SinkFault};
use std::alloc::Global;

/// Writes a text to out, and says what that comes to: this is reported where it was written.
pub(crate) fn put<'a, K: Sink>(
    alloc: Global,
    out: &mut K,
    text: &[u8],
    report: Report,
) -> Ending<'a>
    ensures ending { Puts (K.taken out.old) (K.taken out.new) (K.faults out.old) (K.faults out.new) text.now
        (told (report_bytes report) (report_status report)) (ending_seen result) }
    ensures later { K.faults out.old ≤ K.faults out.new }
    ensures once { FailsOnce (K.faults out.old) (K.faults out.new) (status_of (ending_seen result)) }
{
    match out.write(alloc, text) {
        Ok(()) => Ending::Told(report),
        Err(SinkFault::Failed) => Ending::WriteFault,
        Err(SinkFault::Memory) => Ending::Memory,
    }
}

/// Writes what a command shows, and says what that comes to. Where nothing is to be written, out isn't used.
pub(crate) fn put_shown<'a, K: Sink>(alloc: Global, out: &mut K, shown: Shown) -> Ending<'a>
    ensures ending { Puts (K.taken out.old) (K.taken out.new) (K.faults out.old) (K.faults out.new) shown.out.items
        (told (report_bytes shown.report) (report_status shown.report)) (ending_seen result) }
    ensures quiet { (nat_eq (report_status shown.report) 5 && nat_eq (length shown.out.items) 0) ≡ true → out.new ≡ out.old }
    ensures later { K.faults out.old ≤ K.faults out.new }
    ensures once { FailsOnce (K.faults out.old) (K.faults out.new) (status_of (ending_seen result)) }
{
    if shown.is_quiet() {
        return Ending::Told(shown.report);
    }
    let Shown { out: bytes, report } = shown;
    put(alloc, out, bytes.as_slice(), report)
}
