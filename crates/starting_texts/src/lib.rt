//! Texts to start from: a host table and a policy for a program, which have no fault for it and let it make each
//! privileged call.
#![tactic(auto)]

mod laws;
mod policy_text;
mod table_text;
mod texts;

pub use laws::{
    policies_allow, policies_have_no_fault, programs_have_starting_texts, tables_are_compact,
    tables_have_no_fault, unfit_hosts_are_at_fault,
};
pub use policy_text::starting_policy;
pub use table_text::starting_table;
pub use texts::{StartingPolicy, StartingTable};
