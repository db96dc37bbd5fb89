// What holds of outlines.
ghost use Rattle.outlining.specs.Laws.{AcceptedTextsHaveOutlines, FirstBytesAreEnough, WordsTellCells};

/// Texts of which only the first 1,048,577 bytes were read come to what the whole texts come to. It does
/// nothing.
pub fn first_bytes_are_enough()
    ensures { FirstBytesAreEnough }
{}

/// What an outline says of a pointer is what crosses, cell by cell. It does nothing.
pub fn words_tell_cells()
    ensures { WordsTellCells }
{}

/// Texts in which no stage of `check` has a fault have an outline. It does nothing.
pub fn accepted_texts_have_outlines()
    ensures { AcceptedTextsHaveOutlines }
{}
