//! Texts stop at a stage or pass all stages of a command, but for programs of too many slots; and those that pass come to
//! lines, halves and runs.
#![tactic(auto)]

mod laws;

pub use laws::{
    checks_come_to_an_outcome, climbs_end, climbs_end_without_flows, programs_are_judged,
    runs_come_to_an_outcome, splits_come_to_an_outcome, too_many_slots_have_no_outcome,
    too_many_slots_stop_nothing,
};
