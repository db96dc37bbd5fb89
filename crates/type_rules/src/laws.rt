// What holds of the rules whatever the operands.
ghost use Rattle.type_rules.specs.Laws.{OperatorsAnswer, UnaryRulesAnswer, ConversionsAnswer, ComparisonsAreSymmetric, SubscriptsAreSums, IntegersFitIntegers, PointersFitPointers, ArmsFitTheirChoice, CompoundsFit};

/// An operator, a subscript and a compound assignment are silent exactly where an operand is Bad,
/// each of their faults stands at an operand, and where they have none they give a type that isn't
/// Bad: an integer or a pointer.
pub fn operators_answer()
    ensures { OperatorsAnswer }
{}

/// An operator of one operand is silent exactly where it is Bad, and never gives Bad.
pub fn unary_rules_answer()
    ensures { UnaryRulesAnswer }
{}

/// Fits, choices, conditions and casts are silent exactly where a type is Bad, and a choice never
/// gives Bad.
pub fn conversions_answer()
    ensures { ConversionsAnswer }
{}

/// Two operands that are compared are compared in the same way when they change places.
pub fn comparisons_are_symmetric()
    ensures { ComparisonsAreSymmetric }
{}

/// A subscript moves a pointer as the sum of its two parts does.
pub fn subscripts_are_sums()
    ensures { SubscriptsAreSums }
{}

/// An integer type takes exactly the integers.
pub fn integers_fit_integers()
    ensures { IntegersFitIntegers }
{}

/// A pointer is stored exactly where the pointee is the same and no const is dropped.
pub fn pointers_fit_pointers()
    ensures { PointersFitPointers }
{}

/// Both arms of a choice fit the type that it gives, where that isn't void.
pub fn arms_fit_their_choice()
    ensures { ArmsFitTheirChoice }
{}

/// The result of a compound assignment is that of its operator, and fits the object.
pub fn compounds_fit()
    ensures { CompoundsFit }
{}
