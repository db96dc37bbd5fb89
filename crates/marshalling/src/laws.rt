// Laws of what crosses, each on a function with nothing to do.
ghost use Rattle.marshalling.specs.Laws.{BodiesKeepCounts, StructsStand};

/// The body of a call keeps the counts of the format.
pub fn bodies_keep_counts()
    ensures { BodiesKeepCounts }
{}

/// The structs of a well-formed program are there for each of its signatures, as calls ask.
pub fn structs_stand()
    ensures { StructsStand }
{}
