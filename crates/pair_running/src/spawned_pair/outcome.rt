// What the texts of a pair come to.
use pt_base::{Bytes, End, Listed};
use stages::Refusal;

/// What the texts come to.
#[derive(Drop)]
pub enum Outcome {
    /// A stage refuses the texts.
    Refused(Refusal),
    /// The pair ran, and ended so.
    Ran {
        end: End,
        /// The name of each function of the program, by its number: of these the end tells.
        names: Listed<Bytes>,
    },
}
