// The laws of spellings, each on a function with nothing to do.
ghost use Rattle.boots.specs.Laws.{EachHasOneSpelling, EachHasOneReading, NoneBeginsAnother};

/// A boot is spelled in one way at most, and each boot that a program can hold is.
pub fn one_spelling()
    ensures { EachHasOneSpelling }
{}

/// Bytes are the spelling of at most one boot.
pub fn one_reading()
    ensures { EachHasOneReading }
{}

/// No spelling begins another.
pub fn none_begins_another()
    ensures { NoneBeginsAnother }
{}
