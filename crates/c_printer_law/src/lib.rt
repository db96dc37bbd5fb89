//! What is printed of a plain tree reads back as that tree, positions aside. And the tokens of a printed text are the
//! words that were printed.
#![tactic(auto)]

mod lexing;

ghost use Rattle.c_printer.specs.ReadsBack.{PrintedReadsBack};
ghost use Rattle.c_printer_law.specs.Laws.{DerivesAgain};

pub use lexing::laid_words_are_the_tokens;

/// Tokens that have the kinds and values of a plain program's words give the program, positions aside.
pub fn words_derive_their_program()
    ensures { DerivesAgain }
{}

/// The text that is printed of a comment and a plain program has tokens that give the program, positions
/// aside.
pub fn what_is_printed_reads_back()
    ensures { PrintedReadsBack }
{
    laid_words_are_the_tokens();
}
