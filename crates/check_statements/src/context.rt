// What stands round a statement.
use type_rules::Type;

/// What stands round a statement.
#[derive(Clone, Copy)]
pub struct Context {
    /// The type of the function's result.
    pub result: Type,
    /// It stands in the body of a loop.
    pub in_loop: bool,
    /// It stands in a switch.
    pub in_switch: bool,
}
