// A monitor over a link whose peer is an honest one comes to what is expected of the pair, and to nothing else: it sends such a peer
// nothing that it can't be sent, and no frame of it is a bad one or breaks a rule.

ghost use Rattle.pair_running.specs.HonestTalksLaws.{BegunPairsAreFair, HonestTalksAreExpected};

use half_names_law::checked_programs_place_nulls;
use pair_laws::awaited_replies::{replies_are_awaited, what_is_said_grows};
use pair_laws::begun_pairs::{
    accepted_pairs_begin, accepted_slaves_stay, begun_boots_are_well_formed,
    begun_pairs_are_expected, calls_keep,
};
pub use pair_laws::begun_pairs::{begun_monitors_are_well_formed, begun_monitors_hosts_serve};
use slave_soundness_law::spoken_messages_are_spelled;

/// A talk over an honest link is served to the expected end, with the expected bytes.
pub fn honest_talks_are_expected()
    ensures { HonestTalksAreExpected }
{
    what_is_said_grows();
}

/// The pair that begins from faultless texts is one whose talks are so.
pub fn begun_pairs_are_fair()
    ensures { BegunPairsAreFair }
{
    begun_pairs_are_expected();
    begun_boots_are_well_formed();
    checked_programs_place_nulls();
    accepted_slaves_stay();
    accepted_pairs_begin();
    calls_keep();
    replies_are_awaited();
    spoken_messages_are_spelled();
}
