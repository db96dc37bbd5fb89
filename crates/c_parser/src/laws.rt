// What holds of the derivation.
ghost use Rattle.c_parser.specs.Nesting.{LimitIsNesting, OneOutcome, SomeOutcome};

/// Within a limit on how many counted symbols are open, the derivation gives what it gives without
/// one, where the nesting never goes over the limit; and else the first place at which it does.
pub fn the_limit_is_nesting()
    ensures { LimitIsNesting }
{}

/// The derivation comes to one outcome at most, so an answer that is one is the only one.
pub fn the_derivation_has_one_outcome()
    ensures { OneOutcome }
{}

/// The derivation of each list of tokens comes to an outcome, with a limit and without one.
pub fn the_derivation_comes_to_an_outcome()
    ensures { SomeOutcome }
{}
