// Several pairs in one process, over one monitor's program: from the texts of a program, its host table, its policy and
// its inputs to what each session writes and how it ends. The stages before the input are climbed once, and that of
// inputs once for each. Sessions go on by turns, one whole message of one of them at a time, as the answers of a chooser
// have it. What a session writes and how it ends is what the pair of its input comes to alone, whatever is answered.

mod beginning;
mod laws;
mod pairs;
mod served;
mod turning;

pub use laws::{first_bytes_are_enough, texts_have_one_outcome};
pub use pairs::run;
pub use served::{Served, SessionEnd};
pub use turning::{Talk, run_sessions};
