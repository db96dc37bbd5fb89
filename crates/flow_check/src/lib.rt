//! What the text of a program comes to when its flows are checked: the lines of its privileged variables, where it breaks
//! no rule.
#![tactic(auto)]

mod checking;
mod laws;
mod line_end;
mod shown;
mod slot_lines;
mod variables;

pub use checking::check;
pub use laws::{first_bytes_are_enough, texts_have_one_outcome};
pub use shown::{ShownSlot, shown_slots};
pub use slot_lines::push_fields;
pub use variables::variable_of;
