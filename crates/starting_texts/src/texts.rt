// The texts to start from, or why there are none.
use pt_base::FnId;

/// A host table to start from.
#[derive(Drop)]
pub enum StartingTable {
    /// One line of JSON, without its line feed.
    Text(Vec<u8>),
    /// No entry fits this host, which is mixed and has no result. It is the first such one.
    NoneFits(FnId),
    /// The table would have more bytes than one may have.
    TooLong,
}

/// A policy to start from.
#[derive(Drop)]
pub enum StartingPolicy {
    /// A rule for each of the functions, a line each.
    Text(Vec<u8>),
    /// It would have more rules or more bytes than one may have.
    TooLong,
}
