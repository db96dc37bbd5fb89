// What is privileged in a program is hidden from a peer: two programs that are the same for the slave go alike over peers that give the
// same, whatever the bodies of privileged functions, the monitor's globals and the privileged hosts are.

ghost use Rattle.hidden_laws.specs.HiddenBodiesLaws.{PrivilegedBodiesAreHidden};

use crate::begun_boots::begun_boots_tell_nothing_privileged;
use crate::hidden_runs::boots_and_rules_tell_all;

/// The runs of pairs that begin from texts of two such programs go alike.
pub fn privileged_bodies_are_hidden()
    ensures { PrivilegedBodiesAreHidden }
{
    begun_boots_tell_nothing_privileged();
    boots_and_rules_tell_all();
}
