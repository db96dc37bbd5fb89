//! The texts of both halves of a checked program: they can be declared, calls in them do what the half's calls do, and
//! they read back without a fault.
#![tactic(auto)]

mod calls;
mod declarations;
mod texts;

pub use calls::{
    accepted_halves_run_alike, half_calls_agree, half_functions_agree, half_host_starts_agree,
    half_hosts_agree, half_starts_agree,
};
pub use declarations::{
    accepted_halves_are_said, accepted_halves_are_writable, accepted_halves_keep_their_meaning,
    halves_are_declarable, monitors_are_said, slaves_are_said, trees_are_marked,
};
pub use texts::{
    accepted_monitors_run_by_themselves, accepted_texts_read_back, monitors_declare_hosts,
};
