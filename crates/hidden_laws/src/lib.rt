//! No slave sees what privileged functions do: boots and whole runs are the same, whatever their bodies are.
#![tactic(auto)]

pub mod begun_boots;
pub mod hidden_bodies;
pub mod hidden_runs;
