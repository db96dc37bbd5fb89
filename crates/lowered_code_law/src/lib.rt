//! What holds of lowered code: it is well formed, it names what the body names that it was made of, it is made of that
//! body alone, and without places of the text it is the code of what has none.
#![tactic(auto)]

mod forms;
mod locality;
mod names;
mod places;

pub use forms::lowered_programs_are_well_formed;
pub use locality::lowering_sees_one_body;
pub use names::lowered_code_names_what_the_body_names;
pub use places::places_alone_follow_places;
