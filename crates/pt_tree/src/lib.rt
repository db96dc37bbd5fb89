//! The trees of a program, what its functions are called with, and what stands for its hosts.
#![tactic(auto)]

mod declaration;
mod expression;
mod host_model;
mod operator;
mod parsed_program;
mod program;
mod row;
mod row_index;
mod rows;
mod signature;
mod specifier;
mod statement;
mod word;

pub use declaration::{Declaration, InitDeclarator, Initializer};
pub use expression::{Expr, Link, Postfix};
pub use host_model::HostModel;
pub use operator::{BinaryOp, PrefixOp};
pub use parsed_program::Program;
pub use program::{Function, Item, ParamDecl};
pub use row::{Numbers, Row};
pub use rows::Rows;
pub use signature::{Elem, Param, ParamKind, Params, Signature};
pub use specifier::{Declarator, FieldDecl, Spec, SpecWord, Suffix};
pub use statement::{Block, ForInit, Label, Section, Stmt};
pub use word::{Constant, Word};
