// Specifiers and declarators: what a declaration says of a name, and the name itself.
ghost use Rattle.std.specs.Prelude.{◌≡◌, map};
ghost use Rattle.pt_tree.specs.SpecifierTree.{structure, view_spec, view_field, field_trees};

use crate::word::{Constant, Word};
use pt_base::Span;

/// A keyword among the specifiers.
#[derive(Clone, Copy, Debug, PartialEq, Eq)]
pub enum SpecWord {
    Extern,
    Static,
    Const,
    Void,
    Char,
    Short,
    Int,
    Long,
    Signed,
    Unsigned,
}

/// One specifier of a declaration (C99 6.7). A struct without a body has no fields here, since the
/// grammar knows no empty body.
#[cycle(specifiers)]
pub enum Spec {
    Attribute(Span, Vec<Word>),
    Keyword(Span, SpecWord),
    Struct(Span, Word, Vec<FieldDecl>),
}

impl Drop for Spec {
    #[cycle(specifiers)]
    fn drop(self) {
        match self {
            Spec::Attribute(_, _inner) => {}
            Spec::Keyword(_, _) => {}
            Spec::Struct(_, _first, _second) => {}
        }
    }
}

/// A declaration in the body of a struct (C99 6.7.2.1).
#[cycle(specifiers)]
pub struct FieldDecl {
    pub span: Span,
    pub specs: Vec<Spec>,
    pub declarators: Vec<Declarator>,
}

impl Drop for FieldDecl {
    #[cycle(specifiers)]
    fn drop(self) {
        let FieldDecl {
            span: _,
            specs: _specs,
            declarators: _declarators,
        } = self;
    }
}

/// What stands behind a declared name.
#[derive(Clone, Copy, Debug, PartialEq, Eq)]
pub enum Suffix {
    /// Nothing.
    Plain,
    /// `[]`
    Open,
    /// `[N]`
    Sized(Constant),
}

/// A declared name with what stands round it (C99 6.7.5).
pub struct Declarator {
    pub span: Span,
    pub pointer: bool,
    pub name: Word,
    pub suffix: Suffix,
}

impl Drop for Declarator {
    fn drop(self) {
        let Declarator {
            span: _,
            pointer: _,
            name: _name,
            suffix: _,
        } = self;
    }
}

impl Spec {
    /// A struct with the fields of its body; none where it has no body.
    pub fn structure(span: Span, tag: Word, fields: Vec<FieldDecl>) -> Spec
        ensures { view_spec result ≡ structure span tag (field_trees (map view_field fields.items)) }
    {
        Spec::Struct(span, tag, fields)
    }
}
