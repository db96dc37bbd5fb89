//! What crosses between the two halves of a program at a call, and how it comes back.
//!
//! The slave packs the arguments of a call and takes its reply (`pack_args`, `unpack_results`), or
//! doesn't wait for one that it knows (`post_results`), as `reply_holds_number` tells; the monitor
//! opens what it is sent and packs what it answers (`unpack_args`, `pack_results`). One definition
//! says how each cell comes back, `crossing_of` of `specs/Crossings.antt`. What is sent keeps the
//! counts of the format (`bodies_keep_counts`). The laws of whole calls, whose statements are
//! `Laws.antt`, `TakenReplies.antt` and `HonestCalls.antt` of `specs/`, stand in a crate above.
#![tactic(auto)]

mod copies;
mod crossing;
mod fault;
mod inputs;
mod laws;
mod leaf;
mod leaves;
mod packing;
mod plan;
mod posting;
mod range;
mod ranges;
mod reach;
mod replies;
mod reply_shape;
mod returned;
mod shape;
mod taking;
mod unpacking;
mod walk;
mod wants;

pub use crossing::Crossing;
pub use fault::{BadCall, BadReply};
pub use inputs::Inputs;
pub use laws::{bodies_keep_counts, structs_stand};
pub use leaf::Leaf;
pub use packing::pack_args;
pub use posting::post_results;
pub use replies::pack_results;
pub use returned::{Returned, ReturnedBlock};
pub use taking::unpack_results;
pub use unpacking::unpack_args;
pub use wants::reply_holds_number;
