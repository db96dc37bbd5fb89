//! What all crates share: the numbers, spans, types and ends that they speak of, the outside as
//! traits, and the objects in memory that stand for it.
#![tactic(auto)]

mod byte_sink;
mod bytes;
mod calls;
mod chooser;
mod end;
mod folder;
mod ids;
mod int_type;
mod link;
mod listed;
mod map_folder;
mod numbers;
mod pieces;
mod script_chooser;
mod script_link;
mod sink;
mod slot;
mod span;
mod trap;

pub use byte_sink::ByteSink;
pub use bytes::Bytes;
pub use calls::Calls;
pub use chooser::{Chooser, Watch, Who};
pub use end::End;
pub use folder::{Folder, FolderFault};
pub use ids::{FnId, GlobalId, VarId};
pub use int_type::{IntType, same_int};
pub use link::{Link, LinkFault, Spawner};
pub use listed::Listed;
pub use map_folder::MapFolder;
pub use numbers::{next_number, product, sum};
pub use script_chooser::{Alternate, ScriptChooser};
pub use script_link::ScriptLink;
pub use sink::{Sink, SinkFault};
pub use slot::{Edge, Slot};
pub use span::Span;
pub use trap::Trap;
