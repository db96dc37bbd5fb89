//! What a hostile slave learns, by law over every message that it may say: nothing is done for a message that is
//! refused; what a monitor makes of a message, and what it replies, is made of what a slave may know, of the message
//! and of the numbers that are told. So it is over streams, and over pairs. Time and sizes are no matter of these laws,
//! nor is it kept secret whether a call returns. Over every stream, each guarded call that is made was allowed by the
//! policy. And what the slave starts from is made of the slave's own part of the program, and of what stands for its
//! own hosts.
#![tactic(auto)]

mod guarded;
mod told_boots;

ghost use Rattle.low_views_law.specs.Laws.{FramesKeepCounts, PairsSeeAlike, RefusedMessagesChangeNothing, RepliesAreLow, StreamsAreLow, VerdictsAreLow};

pub use guarded::{guarded_calls_are_allowed, limits_hold_in_runs, refused_calls_are_denied};
pub use told_boots::{
    boots_tell_nothing_privileged, boots_tell_only_places, boots_tell_own_hosts_alone,
    programs_are_the_same_as_themselves,
};

/// Where a message breaks a rule or is refused, what stands is what the messages before it left.
pub fn refused_messages_change_nothing()
    ensures { RefusedMessagesChangeNothing }
{}

/// Which rule a message breaks, whether it is refused, what it writes and which call it makes, is told by what a slave may know.
pub fn verdicts_are_low()
    ensures { VerdictsAreLow }
{}

/// A reply, and what a slave may know then, is made of what it may know, of its message and of the numbers that are told.
pub fn replies_are_low()
    ensures { RepliesAreLow }
{}

/// Two monitors that a slave may know the same of reply the same to the same frames, as long as they tell the same numbers and their
/// calls return.
pub fn streams_are_low()
    ensures { StreamsAreLow }
{}

/// The messages of the frames of any bytes have the counts that the format allows.
pub fn frames_keep_counts()
    ensures { FramesKeepCounts }
{}

/// Two slaves of one boot are the same at each step, as long as their monitors tell the same numbers and go on.
pub fn pairs_see_alike()
    ensures { PairsSeeAlike }
{}
