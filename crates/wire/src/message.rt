// The messages between the two halves of a program.
use crate::cell::WireCell;
use crate::lists::{Args, Blocks, Cells};
use pt_base::{Bytes, Span, Trap};

/// What a call passes: its arguments, and each block that they point into once.
#[derive(Drop)]
pub struct CallBody {
    pub args: Args,
    pub blocks: Blocks,
}

/// What a call gives back: its result if it has one, and the cells that its pointers can reach.
#[derive(Drop)]
pub struct ReplyBody {
    pub result: Option<WireCell>,
    pub cells: Cells,
}

/// A message. `turns` counts what the slave has taken by then.
#[derive(Drop)]
pub enum Message {
    /// A piece of the slave's boot; an empty piece ends it.
    Boot(Bytes),
    /// A call of a function of the monitor, with the depth that it enters (0 for a host), and
    /// whether a reply is wanted.
    Call {
        turns: u64,
        function: u32,
        depth: u8,
        wants: bool,
        body: CallBody,
    },
    /// Bytes for the output.
    Emit {
        turns: u64,
        bytes: Bytes,
    },
    /// The program ended with a status.
    Exit {
        turns: u64,
        status: i32,
    },
    /// The program broke off at a stretch of its text.
    Trap {
        turns: u64,
        kind: Trap,
        span: Span,
    },
    /// The turns are used up.
    Park {
        turns: u64,
    },
    /// The answer to a call that wants one.
    Reply(ReplyBody),
}
