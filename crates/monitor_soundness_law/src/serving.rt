// A monitor stays sound while it serves, whatever it is asked: the work of a call is given numbers of their types and leaves such,
// and behind it the monitor has its globals, no received block and no handle.

ghost use Rattle.monitor_soundness_law.specs.ServingLaws.{CallsArePrepared, CallsAreServed, EntriesAreNamed, MonitorsBeginSound};

/// A monitor of a well formed program whose hosts have models that may stand for them begins sound.
pub fn monitors_begin_sound()
    ensures { MonitorsBeginSound }
{}

/// The structs that the parameters of an entry point to are there.
pub fn entries_are_named()
    ensures { EntriesAreNamed }
{}

/// The blocks of a call that breaks no rule hold numbers of their types.
pub fn calls_are_prepared()
    ensures { CallsArePrepared }
{}

/// What the work of such a call leaves is what a reply is made of, and the monitor behind it is sound.
pub fn calls_are_served()
    ensures { CallsAreServed }
{}
