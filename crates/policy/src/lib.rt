//! Policies: rules over the calls of privileged functions.
#![tactic(auto)]

mod argument;
mod deciding;
mod decimal;
mod error;
mod functions;
mod index;
mod indexing;
mod laws;
mod line;
mod names;
mod plain;
mod policy;
mod read;
mod rule;
mod spelling;
mod starting;
mod states;
mod step;
mod text;
mod verdict;

pub use error::{PolicyError, PolicyFault, PolicyFaultKind};
pub use laws::{
    limits_hold, places_are_arguments, policy_or_fault, rules_are_one, verdicts_are_steps,
};
pub use line::{first_line, first_word, is_passed_over};
pub use plain::is_plain;
pub use policy::Policy;
pub use read::read_policy;
pub use rule::{PlainRange, Rule};
pub use verdict::Verdict;

/// A text may have this many bytes.
pub const TEXT_LIMIT: usize = 1_048_576;

/// A policy may have this many rules.
pub const RULE_LIMIT: usize = 4096;
