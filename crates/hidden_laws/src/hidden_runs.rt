// Of whole runs a peer sees nothing of what is privileged: two pairs with the same boot, of whose monitors the same may be known, send
// the same to peers that give the same, as long as they tell the same numbers and no call traps or spends the turns.

ghost use Rattle.hidden_laws.specs.HiddenRunsLaws.{BegunRunsAreLow, BootsAndRulesTellAll, FirstPartsAreLow, PrivilegedRowsAreHidden, RunsAreLow, RunsServeStreams};

use low_views_law::{frames_keep_counts, streams_are_low};
use monitor_soundness_law::monitors_begin_sound;
use pair_laws::begun_pairs::{begun_monitors_are_well_formed, begun_monitors_hosts_serve};

/// A run comes to what serving the frames of its peer's bytes comes to, and its peer is sent the boot and the replies.
pub fn runs_serve_streams()
    ensures { RunsServeStreams }
{}

/// Two runs of one boot go alike.
pub fn runs_are_low()
    ensures { RunsAreLow }
{
    frames_keep_counts();
    streams_are_low();
    runs_serve_streams();
}

/// So they do in answer to the first frames for which both tell the same.
pub fn first_parts_are_low()
    ensures { FirstPartsAreLow }
{
    frames_keep_counts();
    streams_are_low();
    runs_serve_streams();
}

/// So do the runs of pairs that begin from faultless texts.
pub fn begun_runs_are_low()
    ensures { BegunRunsAreLow }
{
    begun_monitors_are_well_formed();
    begun_monitors_hosts_serve();
    monitors_begin_sound();
    runs_are_low();
}

/// So do those that begin from the same boot, with policies of the same rules.
pub fn boots_and_rules_tell_all()
    ensures { BootsAndRulesTellAll }
{
    begun_runs_are_low();
}

/// So do those of one program with two host tables that differ in privileged hosts alone.
pub fn privileged_rows_are_hidden()
    ensures { PrivilegedRowsAreHidden }
{
    boots_and_rules_tell_all();
}
