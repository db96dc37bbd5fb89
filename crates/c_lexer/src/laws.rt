// The laws of the token relation: a text has one list of tokens or one fault, and never both.
ghost use Rattle.c_lexer.specs.Lexes.{TokensAreOne, FaultIsOne, TokensOrFault};

/// Two lists of tokens of one text are equal, and so are two first faults.
pub fn tokens_are_one()
    ensures tokens { TokensAreOne }
    ensures faults { FaultIsOne }
{}

/// A text has tokens or a fault, and never both.
pub fn tokens_or_fault()
    ensures { TokensOrFault }
{}
