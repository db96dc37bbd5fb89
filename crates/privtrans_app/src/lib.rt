//! The top call.
#![tactic(auto)]

mod ending;
mod help;
mod reading;
mod run;
mod several;
mod showing;
mod slave;
mod split;
pub mod told;
mod top;
mod words;
mod writing;

pub use top::privtrans;
