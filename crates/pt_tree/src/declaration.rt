// Declarations of objects.
use crate::expression::Expr;
use crate::specifier::{Declarator, Spec};
use pt_base::Span;

/// The value of a declared object (C99 6.7.8).
pub enum Initializer {
    Single(Expr),
    Braces(Span, Vec<Expr>),
}

impl Drop for Initializer {
    fn drop(self) {
        match self {
            Initializer::Single(_inner) => {}
            Initializer::Braces(_, _inner) => {}
        }
    }
}

/// A declared name with its value, where it has one.
pub struct InitDeclarator {
    pub declarator: Declarator,
    pub init: Option<Initializer>,
}

impl Drop for InitDeclarator {
    fn drop(self) {
        let InitDeclarator {
            declarator: _declarator,
            init: _init,
        } = self;
    }
}

/// A declaration (C99 6.7).
pub struct Declaration {
    pub span: Span,
    pub specs: Vec<Spec>,
    pub declarators: Vec<InitDeclarator>,
}

impl Drop for Declaration {
    fn drop(self) {
        let Declaration {
            span: _,
            specs: _specs,
            declarators: _declarators,
        } = self;
    }
}
