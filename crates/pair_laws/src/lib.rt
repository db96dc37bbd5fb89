//! The laws of the pair: the work of a served call is the program's own, a pair keeps the invariant from its
//! start on, and comes to what is expected.
#![tactic(auto)]

pub mod accepted_pairs;
pub mod admitted_calls;
pub mod awaited_replies;
pub mod begun_pairs;
pub mod kept_slaves;
pub mod pair_calls;
pub mod pair_start;
pub mod pair_steps;
pub mod revealed_memory;
pub mod served_bodies;
