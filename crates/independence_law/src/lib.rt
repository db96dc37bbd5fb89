//! A result that a monitor gives openly and that is independent tells no secret.
#![tactic(auto)]

mod laws;

pub use laws::{independent_results_tell_no_secret, secret_control_changes_secrets_alone};
