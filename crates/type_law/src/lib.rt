//! What holds of declarations, expressions, statements and programs without a fault: their typed trees are well formed.
//! And how large the typed tree of a program is.
#![tactic(auto)]

mod declarations;
mod expressions;
mod programs;
mod sizes;
mod statements;

pub use declarations::{
    leaves_are_sound, objects_are_sound, results_are_sound, sizes_are_sound, specifiers_are_sound,
    structs_are_well_formed,
};
pub use expressions::{
    bad_operands_are_silent, const_is_not_written, expressions_are_sound, values_fit,
};
pub use programs::programs_are_well_formed;
pub use sizes::typed_trees_are_small;
pub use statements::{blocks_are_kept, bodies_are_sound, starts_are_sound};
