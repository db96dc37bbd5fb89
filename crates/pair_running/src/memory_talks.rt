// A monitor that serves a link in memory is the pair of both, under the answers that the link took: a talk that is served to an end is a
// whole run of the pair, and where the pair comes to an end no talk stops before it.

ghost use Rattle.pair_running.specs.MemoryTalksLaws.{TalksAreWhole, TalksEnd};

/// A talk that is served to an end is a whole run of the pair, with the bytes that were written and this end.
pub fn talks_are_whole()
    ensures { TalksAreWhole }
{}

/// Where the pair comes to an end, a talk neither breaks a rule nor stops open.
pub fn talks_end()
    ensures { TalksEnd }
{}
