//! Messages as bytes: their one spelling, and a reader of it for any pieces.
//!
//! Framing is exact: what is written is the message's spelling (`write_message`), each message has one and
//! no spelling begins another (`one_spelling`, `one_reading`, `none_begins_another`), bytes are one stream
//! of messages (`one_stream`), and a reader gives this stream's messages however the bytes are cut
//! (`Reader`, `one_answer`, `any_cutting`).
#![tactic(auto)]

mod byte_range;
mod cell;
mod fault;
mod laws;
mod limits;
mod lists;
mod message;
mod reader;
mod reading;
mod writing;

pub use byte_range::are_bytes;
pub use cell::{Arg, WireCell};
pub use fault::{FrameFault, WireError};
pub use laws::{
    any_cutting, counts_suffice, none_begins_another, one_answer, one_reading, one_spelling,
    one_stream,
};
pub use lists::{Args, Block, Blocks, Cells};
pub use message::{CallBody, Message, ReplyBody};
pub use reader::Reader;
pub use writing::{put_byte, put_bytes, put_i128, put_u32, put_u64, type_number, write_message};
