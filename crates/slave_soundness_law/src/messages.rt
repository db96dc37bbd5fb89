// All that a slave says has a spelling: its numbers are those of the format's fields, and its counts are within the format's
// limits. So it is for every boot that is well formed and has a spelling, whoever made the boot and whatever replies come.

ghost use Rattle.slave_soundness_law.specs.MessagesLaws.{ReachedSlavesAreInFormat, SlavesBeginInFormat, SpokenMessagesAreSpelled, StepsAreSpelled, TakersStayInFormat};

/// The slave of a well-formed boot that has a spelling begins with numbers of the format's fields.
pub fn slaves_begin_in_format()
    ensures { SlavesBeginInFormat }
{}

/// A step of such a slave says what has a spelling, if anything, and leaves such a slave.
pub fn steps_are_spelled()
    ensures { StepsAreSpelled }
{}

/// So does any reply.
pub fn takers_stay_in_format()
    ensures { TakersStayInFormat }
{}

/// So it is of all that the slave of such a boot comes to with any replies.
pub fn reached_slaves_are_in_format()
    ensures { ReachedSlavesAreInFormat }
{}

/// All that the slave of such a boot says with any replies has a spelling.
pub fn spoken_messages_are_spelled()
    ensures { SpokenMessagesAreSpelled }
{}
