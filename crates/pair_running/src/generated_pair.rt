// A generated program as a pair in one process: what both its halves come to with the host table and the policy that
// were generated with it, and the line that tells of it.

mod laws;
mod pair;
mod telling;

pub use laws::{generated_runs_are_told, generated_texts_have_one_outcome};
pub use pair::run;
