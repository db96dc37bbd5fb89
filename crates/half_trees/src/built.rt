// What is built of an expression or a place.
use pt_tree::Expr;
use typed_tree::VarTy;

/// The C tree of an expression or a place, with its type.
#[derive(Drop)]
pub(crate) struct Built {
    pub tree: Expr,
    pub ty: VarTy,
}
