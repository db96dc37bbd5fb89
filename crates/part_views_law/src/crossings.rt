// What crosses between the halves at a call is what the whole program has: at the beginning and at the end of a call the
// slave's memory with values for its handles, and the body's with its blocks under the names that were packed, are one.

ghost use Rattle.part_views_law.specs.CrossingsLaws.{ViewsMeet, CallsBegin, BodiesAreViewed, CallsEnd, PostedCallsEnd};
ghost use Rattle.part_views_law.specs.CrossingsFits.{BodiesFit, ReturnedFits, SentByFits, WorkedByFits};
ghost use Rattle.part_views_law.specs.CrossingsStores.{StoresGrow};
ghost use Rattle.part_views_law.specs.CrossingsMachines.{BodiesAreEntered, BodiesReturn, HostsAnswer};

/// Where slave and body meet, both views show one memory.
pub fn views_meet()
    ensures { ViewsMeet }
{}

/// Where a call is sent, its body begins with the whole's arguments in the whole's memory.
pub fn calls_begin()
    ensures { CallsBegin }
{}

/// The view of a body that a call begins is one.
pub fn bodies_are_viewed()
    ensures { BodiesAreViewed }
{}

/// A call that was sent and worked on has a reply that the slave takes; then it has what the whole has.
pub fn calls_end()
    ensures { CallsEnd }
{}

/// So it has where it posted the call.
pub fn posted_calls_end()
    ensures { PostedCallsEnd }
{}

/// What a slave has asked for and the body that is started show the whole's machine that has entered the function.
pub fn bodies_are_entered()
    ensures { BodiesAreEntered }
{}

/// Where the body's outermost function returns in the whole, the slave's view shows what the slave goes on with.
pub fn bodies_return<H>()
    ensures { BodiesReturn H }
{}

/// Where the whole makes the call of a host of the monitor's, the slave's view shows what the slave goes on with.
pub fn hosts_answer<H>()
    ensures { HostsAnswer H }
{}

/// Where the halves' memories fit, a call is sent as is asked.
pub fn sent_by_fits()
    ensures { SentByFits }
{}

/// Where the monitor's memory fits at the end of a body, it has worked as is asked.
pub fn worked_by_fits()
    ensures { WorkedByFits }
{}

/// The store gets numbers of their types, and types that the slave knows.
pub fn stores_grow()
    ensures { StoresGrow }
{}

/// What a body is started with fits.
pub fn bodies_fit()
    ensures { BodiesFit }
{}

/// What a slave has after a call fits by the new store.
pub fn returned_fits()
    ensures { ReturnedFits }
{}
