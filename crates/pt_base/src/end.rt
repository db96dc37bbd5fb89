// How a run ends.
use crate::{Bytes, FnId, Span, Trap};

/// How a run ends.
#[derive(Drop)]
pub enum End {
    /// main returned this status.
    Exit(i32),
    /// The run broke off, at this place of the text.
    Trapped(Trap, Span),
    /// One more turn was needed than the budget has.
    Spent,
    /// The policy denied a guarded call.
    Refused {
        /// The call's number among the guarded calls, from 1.
        call: u64,
        function: FnId,
        /// The policy's state at that call.
        state: Bytes,
    },
}
