// What a function or host is called with, and how it is marked.
use pt_base::{Bytes, IntType, Listed};
use std::alloc::{AllocError, Global};

/// What an array or a pointer is of: an integer type, or the struct of this number.
#[derive(Clone, Copy, Debug, PartialEq, Eq)]
pub enum Elem {
    Int(IntType),
    Struct(u32),
}

/// What a parameter takes.
#[derive(Clone, Copy, Debug, PartialEq, Eq)]
pub enum ParamKind {
    /// A number of this type.
    Int(IntType),
    /// A pointer. `fixed` is a pointee that is const.
    Ptr { elem: Elem, fixed: bool },
}

/// A parameter, with its marks.
#[derive(Clone, Copy, Debug, PartialEq, Eq)]
pub struct Param {
    pub kind: ParamKind,
    /// It is marked `priv`.
    pub marked: bool,
    /// It is marked `declassify`.
    pub declassify: bool,
}

/// The parameters of a function, in order.
pub type Params = Listed<Param>;

/// What a function or host is called with, and how it is marked.
pub struct Signature {
    pub name: Bytes,
    /// The type of its result; None is void.
    pub result: Option<IntType>,
    pub params: Params,
    /// It is declared and never defined.
    pub host: bool,
    /// It is marked `priv`.
    pub privileged: bool,
    /// It is marked `declassify`.
    pub declassify: bool,
}

impl Drop for Signature {
    fn drop(self) {
        let Signature {
            name: _name,
            result: _result,
            params: _params,
            host: _,
            privileged: _,
            declassify: _,
        } = self;
    }
}

impl Signature {
    ghost use Rattle.std.specs.Prelude.{◌≡◌, IfOk};

    /// A signature that is equal to this one.
    pub fn copy(&self, alloc: Global) -> Result<Signature, AllocError>
        ensures { IfOk result (λ s. s ≡ self.now) }
    {
        Ok(Signature {
            name: self.name.copy(alloc)?,
            result: self.result,
            params: self.params.copy(alloc)?,
            host: self.host,
            privileged: self.privileged,
            declassify: self.declassify,
        })
    }
}
