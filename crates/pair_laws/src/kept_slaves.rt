// What is kept of the slaves that an accepted program's slave comes to, whatever replies it takes: they
// are sound, compute with no handle, and ask with handles under marks alone.

ghost use Rattle.pair_laws.specs.KeptSlavesLaws.{AcceptedSlavesStay, ReachedSlavesAreKept};

/// The slaves that the slave of an accepted program comes to are kept, and it is one of them.
pub fn reached_slaves_are_kept()
    ensures { ReachedSlavesAreKept }
{}

/// So the slave that such a program's boot begins with stays so.
pub fn accepted_slaves_stay()
    ensures { AcceptedSlavesStay }
{}
