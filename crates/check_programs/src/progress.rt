// What the items of a program make so far.
use check_expressions::Names;
use check_statements::Walk;
use typed_tree::{TypedFn, TypedGlobal};

/// What the items of a program make so far.
#[derive(Drop)]
pub(crate) struct Progress {
    pub(crate) names: Names,
    /// What is found, and the outermost expressions of all bodies, in text order.
    pub(crate) walk: Walk,
    /// The functions by number.
    pub(crate) functions: Vec<TypedFn>,
    pub(crate) globals: Vec<TypedGlobal>,
    /// The cells of all globals, counted up to 1,048,577.
    pub(crate) cells: u32,
    /// Main is defined, with the result int and no parameters.
    pub(crate) has_main: bool,
}
