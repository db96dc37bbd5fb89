//! The rules by which no secret leaves the half that may hold it: what is a fault, by which way a secret
//! comes there, and which programs are accepted.
#![tactic(auto)]

mod accepted;
mod bodies;
mod check;
mod fault;
mod findings;
mod flows;
mod found;
mod function_rules;
mod functions;
mod laws;
mod memo;
mod object_rules;
mod order;
mod paths;
mod plain_rule;
mod rule;
mod secrets;
mod usage_rules;

pub use accepted::Accepted;
pub use check::check_flows;
pub use fault::{FlowError, FlowFault};
pub use laws::{flows_are_own, refused_for_faults_alone};
pub use paths::MOST_SPANS;
pub use rule::Rule;
