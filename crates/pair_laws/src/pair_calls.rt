// Where the slave of a pair that is live asks for a call, the pair goes on, live, or has come to what is expected of the whole
// program: the call is served as the whole makes it, refused as the policy says, or there is no turn for it in both.

ghost use Rattle.pair_invariant_law.specs.Laws.{CallsKeep};
ghost use Rattle.pair_invariant_law.specs.Slaves.{Stays};

/// What a slave asks for keeps the pair.
pub fn calls_keep()
    ensures { CallsKeep Stays }
{}
