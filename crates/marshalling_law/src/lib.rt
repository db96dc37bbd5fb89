//! The laws of calls and their replies, over the definitions of marshalling.
//!
//! What may be sent is never refused. Posting a call is taking its reply, and a reply that is taken leaves just what it
//! says. A call that is served returns, and leaves what its callee would have left in the caller's own memory. What a
//! reply gives and tells is its plain numbers and the next handles; whoever made it, it leaves the machine of its
//! caller fitting. What a machine that fits asks for may be packed, sent and spelled.
#![tactic(auto)]

mod calls;
mod laws;
mod replies;
mod taking;

pub use calls::{
    all_are_given, bodies_are_served, calls_are_packable, calls_are_spelled, exits_are_spelled,
    inputs_fit, known_by_fits, parks_are_spelled, results_are_numbers, sendable_by_fits,
    traps_are_spelled, writes_are_spelled,
};
pub use laws::{
    calls_are_transparent, honest_calls_return, never_refused, posting_is_taking,
    replies_are_taken, replies_hold_numbers,
};
pub use replies::{
    cells_by_what_is_told, faults_see_types, postings_give_few, replies_by_what_is_told,
    replies_give_few,
};
pub use taking::{known_replies_are_replies, taken_replies_fit};
