// The pair of a slave and a monitor, in which each message is served at once, keeps what it has to do with the run of the whole
// program, and comes to what is expected of that under its policy. So it is in every order of turns, and for a monitor whose peer is
// an honest one. What a call keeps is asked of another law.

ghost use Rattle.pair_invariant_law.specs.Slaves.{Stays};
ghost use Rattle.pair_laws.specs.PairStepsEnds.{HonestPeersAreExpected, ThePairEnds, ThePairIsExpected};
ghost use Rattle.pair_laws.specs.PairStepsSteps.{LateKeeps, StepsKeep, ThePairKeeps};

/// A step that asks for nothing keeps a live pair.
pub fn steps_keep()
    ensures { StepsKeep Stays }
{}

/// Any step keeps a late pair.
pub fn late_keeps()
    ensures { LateKeeps Stays }
{}

/// Every step of the pair keeps it.
pub fn the_pair_keeps()
    ensures { ThePairKeeps Stays }
{}

/// The pair in which each message is served at once comes to what is expected.
pub fn the_pair_ends()
    ensures { ThePairEnds Stays }
{}

/// The pair writes and ends as the whole program does under its policy, whatever window and order of turns.
pub fn the_pair_is_expected()
    ensures { ThePairIsExpected Stays }
{}

/// A monitor over an honest peer writes and ends so too.
pub fn honest_peers_are_expected()
    ensures { HonestPeersAreExpected Stays }
{}
