// What holds of bodies and of globals' initialisers without a fault: typed statements are well formed,
// their outermost expressions have consecutive numbers, and globals start with numbers that fit them.

ghost use Rattle.type_law.specs.StatementsLaws.{BlocksAreKept, BodiesAreSound, StartsAreSound};

/// Whatever the faults of a block, its statements change nothing of the file.
pub fn blocks_are_kept()
    ensures { BlocksAreKept }
{}

/// The typed statements of a body without a fault are well formed.
pub fn bodies_are_sound()
    ensures { BodiesAreSound }
{}

/// The numbers with which a global starts are in the ranges of its integers.
pub fn starts_are_sound()
    ensures { StartsAreSound }
{}
