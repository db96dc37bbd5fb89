// Functions, and what stands outside of them.
use crate::declaration::Declaration;
use crate::specifier::{Declarator, Spec, Suffix};
use crate::statement::Block;
use crate::word::Word;
use pt_base::Span;

/// A declared parameter (C99 6.7.5.3).
pub struct ParamDecl {
    pub span: Span,
    pub specs: Vec<Spec>,
    pub pointer: bool,
    pub name: Option<Word>,
    pub suffix: Suffix,
}

impl Drop for ParamDecl {
    fn drop(self) {
        let ParamDecl {
            span: _,
            specs: _specs,
            pointer: _,
            name: _name,
            suffix: _,
        } = self;
    }
}

/// A function: a prototype, or a definition with its body.
pub struct Function {
    pub span: Span,
    pub specs: Vec<Spec>,
    pub declarator: Declarator,
    pub params: Vec<ParamDecl>,
    pub body: Option<Block>,
}

impl Drop for Function {
    fn drop(self) {
        let Function {
            span: _,
            specs: _specs,
            declarator: _declarator,
            params: _params,
            body: _body,
        } = self;
    }
}

/// What stands outside of functions (C99 6.9).
pub enum Item {
    Declare(Declaration),
    Function(Function),
}

impl Drop for Item {
    fn drop(self) {
        match self {
            Item::Declare(_inner) => {}
            Item::Function(_inner) => {}
        }
    }
}
