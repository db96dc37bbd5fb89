//! The names of the functions of a text's program are identifiers, and no two of them are one.
#![tactic(auto)]

ghost use Rattle.plain_names_law.specs.Laws.{NamesOfTextsArePlain};

/// In the typed tree of a text no two functions have one name, and each name is an identifier. It does nothing.
pub fn names_of_texts_are_plain()
    ensures { NamesOfTextsArePlain }
{}
