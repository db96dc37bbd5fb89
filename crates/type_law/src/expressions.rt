// What holds of expressions without a fault: their typed trees are well formed, and of the type that
// was judged. And of faults: an operator adds none where an operand is faulty already, and what
// writes a const object always has one.

ghost use Rattle.type_law.specs.ExpressionsLaws.{BadOperandsAreSilent, ConstIsNotWritten, ExpressionsAreSound, ValuesFit};

/// The typed tree of an expression without a fault is well formed, and has its type.
pub fn expressions_are_sound()
    ensures { ExpressionsAreSound }
{}

/// A value that fits an object is converted to a well formed tree of the object's type.
pub fn values_fit()
    ensures { ValuesFit }
{}

/// An operator with an operand of type Bad adds no fault to those of its operands.
pub fn bad_operands_are_silent()
    ensures { BadOperandsAreSilent }
{}

/// An assignment to a const object, `++` and `--` of one have the fault ConstWrite at the object.
pub fn const_is_not_written()
    ensures { ConstIsNotWritten }
{}
