// Streams of frames that no honest slave says, made from seeds: mostly what a monitor serves, and among it what breaks each rule.

mod calls;
mod large;
mod making;
mod numbers;

pub use large::{LARGE_STREAMS, large_stream};
pub use making::Made;
