// What holds of all audits.
ghost use Rattle.auditing.specs.Laws.{AcceptedTextsHaveAudits, AuditsAreOne, AuditsNameAll, FirstBytesAreEnough};

/// Texts come to one outcome at most, but for the ways by which faults show how a secret comes there. It does
/// nothing.
pub fn audits_are_one()
    ensures { AuditsAreOne }
{}

/// Texts of which only the first 1,048,577 bytes were read come to what the whole texts come to. It does
/// nothing.
pub fn first_bytes_are_enough()
    ensures { FirstBytesAreEnough }
{}

/// Texts in which no stage of `check` has a fault have an audit. It does nothing.
pub fn accepted_texts_have_audits()
    ensures { AcceptedTextsHaveAudits }
{}

/// An audit has a line for each function of the program that has a body, is marked `priv` and `declassify` and gives a
/// number, in the order of their numbers, and for no other. It does nothing.
pub fn audits_name_all()
    ensures { AuditsNameAll }
{}
