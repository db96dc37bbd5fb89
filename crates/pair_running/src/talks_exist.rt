// There is an honest peer for each pair that does what is expected, and over it the monitor comes to that: a peer that gives what its
// slave says is honest however it cuts that and whatever it is sent, and a talk with it is served up to the expected end. A link whose
// talk this is tells so much of itself as `run` asks of its spawner. So what is promised over an honest link isn't promised of nothing.

ghost use Rattle.pair_running.specs.TalksExistLaws.{AwaitedRepliesAreSpelled, BegunPairsHaveTalks, FairPairsHaveTalks, SayingIsHonest};
ghost use Rattle.pair_running.specs.TalksExistLinks.{BegunPairsHaveHonestLinks, PlannedLinksTell};

use crate::honest_talks::begun_pairs_are_fair;
use pair_laws::awaited_replies::what_is_said_grows;
use pair_laws::begun_pairs::begun_boots_are_well_formed;
use pair_texts::texts_have_one_outcome;
use slave_soundness_law::reached_slaves_are_in_format;

/// Each reply that a slave waits for has a spelling, where its boot is well formed and has one.
pub fn awaited_replies_are_spelled()
    ensures { AwaitedRepliesAreSpelled }
{
    reached_slaves_are_in_format();
}

/// A peer that gives what its slave says to what it was sent is honest, whatever that is and in whatever pieces it gives.
pub fn saying_is_honest()
    ensures { SayingIsHonest }
{
    what_is_said_grows();
}

/// A pair that does what is expected, and can do so over a link, has a talk with such a peer that is served up to the expected end.
pub fn fair_pairs_have_talks()
    ensures { FairPairsHaveTalks }
{
    awaited_replies_are_spelled();
    saying_is_honest();
    what_is_said_grows();
}

/// So has each pair that begins from faultless texts.
pub fn begun_pairs_have_talks()
    ensures { BegunPairsHaveTalks }
{
    begun_boots_are_well_formed();
    begun_pairs_are_fair();
    fair_pairs_have_talks();
}

/// A link whose talk is written down tells, by what it came by, what its peer said where it is honest.
pub fn planned_links_tell()
    ensures { PlannedLinksTell }
{}

/// Each pair that begins has a link whose talk is written down, that is honest for it, and over which its monitor comes to the expected
/// end.
pub fn begun_pairs_have_honest_links()
    ensures { BegunPairsHaveHonestLinks }
{
    begun_pairs_have_talks();
    texts_have_one_outcome();
}
