// The outermost expressions of a function's body, with what each stands for.
use crate::ids::ExprId;
use pt_base::VarId;

/// What an outermost expression stands for.
#[derive(Clone, Copy, Debug, PartialEq, Eq)]
pub enum Role {
    /// It is evaluated alone: a statement, or the first part or the step of a `for`.
    Value,
    /// It is a condition, or what a `switch` chooses by.
    Condition,
    /// It initialises this variable, or one of its integers.
    Init(VarId),
    /// It is returned.
    Returned,
}

/// An outermost expression of a body.
#[derive(Clone, Copy, Debug, PartialEq, Eq)]
pub struct Part {
    pub role: Role,
    pub expr: ExprId,
}
