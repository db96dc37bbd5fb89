// A slave's steps are bounded by its program and its turns, whatever replies it is given.

ghost use Rattle.pair_meaning.specs.BoundsLongest.{SlavesAreBounded};

/// A slave that keeps a machine makes only so many steps, whatever replies it is given, and then it waits or
/// is over.
pub fn slaves_are_bounded<S, M, X, R, E, Q, G>()
    ensures { SlavesAreBounded S M X R E Q G }
{}
