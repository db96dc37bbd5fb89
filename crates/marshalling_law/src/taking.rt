// A reply that a call can have leaves the machine of its caller fitting, whoever made it; and the reply of a call that is
// posted is such a one.

ghost use Rattle.marshalling_law.specs.TakingLaws.{KnownRepliesAreReplies, TakenRepliesFit};

/// A machine that fits does so with what a reply leaves that its call can have, where the handles that the reply gives stand
/// for numbers of their places' types.
pub fn taken_replies_fit()
    ensures { TakenRepliesFit }
{}

/// The one reply of a call whose reply holds no number is one that the call can have.
pub fn known_replies_are_replies()
    ensures { KnownRepliesAreReplies }
{}
