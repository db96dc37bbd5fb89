// Gates of which one shows the other step alike, and a whole run as the bytes that its hosts wrote.

ghost use Rattle.core_steps_law.specs.GatesLaws.{BytesAreTheRuns, GatesAgree};

use crate::{only_the_run_is_seen, silent_runs_agree};

/// Under a gate that shows another one, so many steps are those under the other: the same answer and
/// machine, and of the gate what is shown.
pub fn gates_agree<G, H, K>()
    ensures { GatesAgree G H K }
{}

/// A machine that has come to an end under the gate that keeps the written bytes alone has the bytes, the
/// end and the turns of the program's run.
pub fn bytes_are_the_runs()
    ensures { BytesAreTheRuns }
{
    silent_runs_agree();
    only_the_run_is_seen();
}
