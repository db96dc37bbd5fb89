//! The typed tree: a program whose types and conversions are written out and whose names are numbers.
#![tactic(auto)]

mod expression;
mod function;
mod ids;
mod link;
mod part;
mod place;
mod statement;
mod type_tests;
mod typed;
mod types;
mod variable;
mod walk;

pub use expression::{Form, TypedExpr};
pub use function::TypedFn;
pub use ids::ExprId;
pub use link::{LinkStep, LogicalOp, TypedLink, TypedOperand};
pub use part::{Part, Role};
pub use place::{Place, PlaceStep, Root};
pub use statement::{
    Items, TypedBody, TypedDeclaration, TypedDeclarator, TypedForInit, TypedInit, TypedLabel,
    TypedSection,
};
pub use type_tests::{
    fields_of, is_main, is_pointer, is_struct, param_type, same_elem, same_type, type_of_elem,
};
pub use typed::Typed;
pub use types::{Field, Fields, StructInfo, VarTy};
pub use variable::{Cells, TypedGlobal, Var, Vars};
