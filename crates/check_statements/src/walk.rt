// What a walk over a function's body threads.
use check_declarations::Findings;
use typed_tree::TypedExpr;

/// What a walk over a function's body makes so far.
#[derive(Drop)]
pub struct Walk {
    pub findings: Findings,
    /// The outermost expressions, in text order.
    pub exprs: Vec<TypedExpr>,
}
