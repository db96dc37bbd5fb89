// Laws of words, each the contract of a function that does nothing.
ghost use Rattle.word_arithmetic.specs.Words.{IsZeroAsWord, ConvertsByBits};

/// A word is 0 exactly where its number is.
pub fn zero_as_word()
    ensures { IsZeroAsWord }
{}

/// A conversion asks for a word's bits alone, so a wide word and its own number are converted alike.
pub fn converts_by_bits()
    ensures { ConvertsByBits }
{}
