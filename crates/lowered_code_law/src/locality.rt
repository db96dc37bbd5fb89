// The lowering of a function looks at the function alone: at its own expressions, the structs, and the types of the globals that it names.

ghost use Rattle.lowered_code_law.specs.LocalityLaws.{LoweringSeesOneBody};

/// A function that is the same in two programs, whatever else they have, has the same code in both.
pub fn lowering_sees_one_body()
    ensures { LoweringSeesOneBody }
{}
