//! The fields that boots are made of, as bytes, and how a whole boot is spelled.
//!
//! Byte strings and what has one byte are written here, over the numbers of `wire`, and read with the numbers: a
//! `put_` function appends a value, and fails where memory ran out; the others give what stands at the front and the bytes behind it, and answer
//! `Bad` where the bytes don't begin so. How a whole boot is spelled, and what bytes are read as, is said in the
//! definitions.
#![tactic(auto)]

mod fault;
mod reading;
mod writing;

pub use fault::ReadError;
pub use reading::{
    binary_op, byte, int_type, number_i128, number_u32, number_u64, span, text, truth, unary_op,
};
pub use writing::{binary_number, put_count, put_span, put_text, put_truth, unary_number};
