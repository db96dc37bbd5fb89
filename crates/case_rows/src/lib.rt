//! What the programs that show rows share: lists of rows, the texts that rows spell, what stands in what
//! they show, and what is told of the front end's work.
#![tactic(auto)]

mod hexadecimal;
mod lists;
mod names;
mod spelling;
mod text_files;
mod types;
mod watches;

pub use hexadecimal::{bytes_of, push_hex};
pub use lists::{STACK, Shows, show_lists};
pub use names::{push_names, signature_of};
pub use spelling::{first_word, push_bytes, push_shown, repeats, spelled};
pub use text_files::TextFiles;
pub use types::{int_name, int_type};
pub use watches::{Meetings, Silent};
