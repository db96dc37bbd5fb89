//! Each statement of the tree of a half that C can say, typed by the type judgments in names that are known
//! as the tree declares them, means in the source's meaning what the normal form's statement means, the places
//! of traps aside. Copies of arrays, and null where it is more than stored, passed or compared with what isn't
//! null, are no such statements (`CForms.antt`).
#![tactic(auto)]

ghost use Rattle.half_meaning_law.specs.Expressions.{ExpressionsKeepTheirMeaning, PlacesKeepTheirMeaning};
ghost use Rattle.half_meaning_law.specs.Statements.{BlocksKeepTheirMeaning, BodiesKeepTheirMeaning, StatementsKeepTheirMeaning};

/// An expression: its tree has no fault, and in states that are alike its typed tree has the value that
/// the normal form's expression has, or traps in the same way.
pub fn expressions_keep_their_meaning()
    ensures { ExpressionsKeepTheirMeaning }
{}

/// A place: its tree has no fault, is an object, and its typed tree designates the same object.
pub fn places_keep_their_meaning()
    ensures { PlacesKeepTheirMeaning }
{}

/// A statement: its trees have no fault and declare nothing, and from states that are alike their typed
/// trees run as it does: the same is seen, control goes on in the same way or the run ends in the same
/// way, with as many turns taken.
pub fn statements_keep_their_meaning()
    ensures { StatementsKeepTheirMeaning }
{}

/// A list of statements: its trees, one behind the other.
pub fn blocks_keep_their_meaning()
    ensures { BlocksKeepTheirMeaning }
{}

/// The body of a function of a half that is sound: all its trees.
pub fn bodies_keep_their_meaning()
    ensures { BodiesKeepTheirMeaning }
{}
