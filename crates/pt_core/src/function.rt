// Functions.
use crate::statement::Stmt;
use pt_base::{FnId, Span};
use typed_tree::Vars;

/// A function: its variables, of which the first are its parameters, and its body.
pub struct CoreFn {
    pub id: FnId,
    /// How many of its variables are parameters.
    pub params: u8,
    pub vars: Vars,
    pub body: Vec<Stmt>,
    /// Where its closing brace stands.
    pub end: Span,
}

impl Drop for CoreFn {
    fn drop(self) {
        let CoreFn {
            id: _,
            params: _,
            vars: _vars,
            body: _body,
            end: _,
        } = self;
    }
}
