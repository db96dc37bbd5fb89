// The laws, each on a function with nothing to do.
ghost use Rattle.marshalling.specs.HonestCalls.{CallsAreTransparent, HonestCallsReturn};
ghost use Rattle.marshalling.specs.Laws.{NeverRefused, PostingIsTaking, RepliesHoldNumbers};
ghost use Rattle.marshalling.specs.TakenReplies.{RepliesAreTaken};

/// What is made of a memory that may be sent is never refused.
pub fn never_refused()
    ensures { NeverRefused }
{}

/// Posting a call leaves what taking the reply does that serving gives.
pub fn posting_is_taking()
    ensures { PostingIsTaking }
{}

/// Whether a reply holds a number is the same for the caller, by its blocks, and for the receiver,
/// by the body that it was sent.
pub fn replies_hold_numbers()
    ensures { RepliesHoldNumbers }
{}

/// A reply that the call can have leaves just what it says.
pub fn replies_are_taken()
    ensures { RepliesAreTaken }
{}

/// A call that may be made is taken by its receiver, whose reply is one that the call can have, and
/// leaves the numbers that the callee left, or handles for them; all else stays.
pub fn honest_calls_return()
    ensures { HonestCallsReturn }
{}

/// With values in the place of handles, a call leaves in the caller's memory what its callee would
/// have left there.
pub fn calls_are_transparent()
    ensures { CallsAreTransparent }
{}
