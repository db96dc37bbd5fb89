//! Which models may stand for which hosts, and what those answer.
#![tactic(auto)]

mod answering;
mod fitting;
mod mixed;

pub use answering::answers_in_range;
pub use fitting::{fits, has_numbers_in_range, has_right_params};
pub use mixed::is_mixed;
