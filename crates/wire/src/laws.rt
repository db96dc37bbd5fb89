// The laws of spellings, streams and readers, each on a function with nothing to do.
ghost use Rattle.wire.specs.Laws.{EachHasOneSpelling, CountsSuffice, EachHasOneReading, NoneBeginsAnother, EachHasOneStream, OneAnswer, AnyCutting};

/// A message within all limits is spelled in exactly one way, any other in none.
pub fn one_spelling()
    ensures { EachHasOneSpelling }
{}

/// A message whose counts keep their limits keeps all limits, if it has no long bytes and not very many cells.
pub fn counts_suffice()
    ensures { CountsSuffice }
{}

/// Bytes are the spelling of at most one message.
pub fn one_reading()
    ensures { EachHasOneReading }
{}

/// No spelling begins another.
pub fn none_begins_another()
    ensures { NoneBeginsAnother }
{}

/// Bytes are exactly one stream: messages, and then the reason why there are no more.
pub fn one_stream()
    ensures { EachHasOneStream }
{}

/// Want of memory aside, the state of a reader determines what `next` answers and leaves.
pub fn one_answer()
    ensures { OneAnswer }
{}

/// However the bytes of a stream are cut into pieces, a reader gives its messages in order.
pub fn any_cutting()
    ensures { AnyCutting }
{}
