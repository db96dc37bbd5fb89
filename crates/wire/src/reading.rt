// Reading messages.
mod fields;
pub(crate) mod front;
mod lists;
mod messages;
