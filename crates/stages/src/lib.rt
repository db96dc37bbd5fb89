//! How far the texts of a program come: the stages that they go through, of lexer, parser, types, host table, policy,
//! flows and input, and the first that refuses them. Each command climbs as far as it needs to; none of this prints.
#![tactic(auto)]

mod climbs;
mod judging;
mod laws;
mod limits;
mod refusal;
mod rungs;
mod tracing;

pub use climbs::{GivenTexts, PassedTexts, accepted, passed};
pub use judging::judge;
pub use laws::{
    climbs_join, first_bytes_are_enough, longer_climbs_stop, passed_or_refused, refusals_are_one,
};
pub use limits::{INPUT_LIMIT, MOST_BYTES, room_for};
pub use refusal::{Refusal, Stop};
pub use rungs::{AcceptedProgram, HostedProgram, fits, hosted, judged, ruled, typed};
pub use tracing::{Traced, trace};
