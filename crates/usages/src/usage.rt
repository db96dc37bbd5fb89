// What the values of expressions are used for.
use pt_base::{FnId, VarId};
use typed_tree::TypedExpr;

/// What the value of an expression is used for.
#[derive(Clone, Copy)]
pub enum How {
    /// Nothing is done with the number: it is dropped, handed on, or no number.
    Kept,
    /// An operator looks at the number, or it is an index or a condition, or is converted.
    Operated,
    /// It is the argument of this number of a call of this function.
    Passed(FnId, usize),
    /// It initialises this variable: whole, or as the item of this number of a brace list.
    Begins(VarId, usize),
    /// It is returned.
    Returned,
}

/// An expression, and what its value is used for.
#[derive(Clone, Copy)]
pub struct Usage<'a> {
    pub how: How,
    pub value: &'a TypedExpr,
}
