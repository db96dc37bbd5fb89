//! The integer types' conversions and operators, with the value or the trap that C99 gives each.
#![tactic(auto)]

mod arithmetic;
mod conversion;
mod evaluation;
mod operator;

pub use conversion::{
    all_ones, conversion_is_one, convert, has_sign, in_range, is_in_range, promote, usual,
};
pub use evaluation::{binary, unary};
pub use operator::{BinOp, UnOp};
