// What names of functions and objects mean.
use pt_base::{Bytes, FnId, GlobalId, Listed, Span, VarId};
use type_rules::Type;

/// What a name means that is no tag, field or label.
#[derive(Clone, Copy, Drop)]
pub enum Meaning {
    Function(FnId),
    Global(GlobalId),
    /// A variable of the function that is being judged.
    Local(VarId),
}

/// An object as expressions see it.
#[derive(Clone, Copy, Drop)]
pub struct Object {
    pub ty: Type,
    /// It is const itself; parts of it may be const where it is not.
    pub fixed: bool,
}

/// A variable of a function, as its declaration has it.
#[derive(Drop)]
pub struct Variable {
    pub name: Bytes,
    /// Where it is named; of a parameter without a name, its first specifier.
    pub span: Span,
    pub ty: Type,
    /// It is const itself.
    pub fixed: bool,
    /// It is marked `priv`.
    pub marked: bool,
    /// It is marked `unpriv`.
    pub unpriv: bool,
}

/// The types of a function's parameters.
pub type ParamTypes = Listed<Type>;

/// A function or host, as its first declaration has it.
#[derive(Drop)]
pub struct Callable {
    pub name: Bytes,
    /// The type of its result.
    pub result: Type,
    pub params: ParamTypes,
}
