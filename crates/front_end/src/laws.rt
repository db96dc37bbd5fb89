// What holds of all readings.
ghost use Rattle.front_end.specs.Reading.{ReadingIsOne};

/// A text comes to one typed tree, or to one fault of its tokens or of their grammar, or to one list
/// of type faults, and to no two of these: so an answer that it comes to is the only one.
pub fn a_text_has_one_reading()
    ensures { ReadingIsOne }
{}
