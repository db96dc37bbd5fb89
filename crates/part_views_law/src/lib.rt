//! How a part of a program is seen in the whole: where its blocks lie there, what its handles stand for, and on whose
//! functions its own stand. It holds definitions, and the laws that a slave's view and a served body's are views. And
//! that a part steps as the whole does, and that what crosses between the halves at a call is what the whole has.
#![tactic(auto)]

mod calls;
mod crossings;
mod steps;

ghost use Rattle.part_views_law.specs.Laws.{ReceivedLie, ServedAreViewed, SlavesAreViewed};

pub use calls::{
    bodies_are_shown, calls_are_entered, calls_return, shown_calls_are_sent, slaves_go_on,
};
pub use crossings::{
    bodies_are_entered, bodies_are_viewed, bodies_fit, bodies_return, calls_begin, calls_end,
    hosts_answer, posted_calls_end, returned_fits, sent_by_fits, stores_grow, views_meet,
    worked_by_fits,
};
pub use steps::{
    added_compute_alike, bodies_stand, parts_lead, parts_run, parts_stand, parts_step,
    pointers_are_plain, slaves_stand,
};

/// The view of a slave is one.
pub fn slaves_are_viewed()
    ensures { SlavesAreViewed }
{}

/// The view of a served body is one.
pub fn served_are_viewed()
    ensures { ServedAreViewed }
{}

/// Each block that a served body received lies under the name that was packed.
pub fn received_lie()
    ensures { ReceivedLie }
{}
