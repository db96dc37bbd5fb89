// The tokens of a printed text are the words that were printed.

ghost use Rattle.c_printer_law.specs.LexingLaw.{LaidLexes};

/// The text of a comment and plain items has the tokens of the items' words, whatever lines were broken.
pub fn laid_words_are_the_tokens()
    ensures { LaidLexes }
{}
