// The call of a slave that is shown in the whole program's machine breaks no rule of the monitor's, whose verdict on it is the
// policy's in the judged run of the whole.

ghost use Rattle.pair_laws.specs.AdmittedCallsLaws.{HonestCallsAreJudged};

/// Such a call breaks no rule, and is judged in the monitor as in the whole.
pub fn honest_calls_are_judged()
    ensures { HonestCallsAreJudged }
{}
