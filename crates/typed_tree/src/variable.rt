// The variables of functions, and globals.
use crate::types::VarTy;
use pt_base::{Bytes, Listed, Span};
use std::alloc::{AllocError, Global};

/// An object: a variable of a function or a global.
pub struct Var {
    pub name: Bytes,
    /// Where it is declared.
    pub span: Span,
    pub ty: VarTy,
    /// It is marked `priv`.
    pub marked: bool,
    /// It is marked `unpriv`.
    pub unpriv: bool,
    /// Of a temporary, the expression that it holds. The typed tree has no temporaries: None.
    pub holds: Option<Span>,
}

impl Drop for Var {
    fn drop(self) {
        let Var {
            name: _name,
            span: _,
            ty: _,
            marked: _,
            unpriv: _,
            holds: _,
        } = self;
    }
}

/// The variables of a function, its parameters first.
pub type Vars = Listed<Var>;

/// The values of an object's integers, in declaration order.
pub type Cells = Listed<i128>;

/// A global with the values that it starts with.
pub struct TypedGlobal {
    pub var: Var,
    /// It is const.
    pub fixed: bool,
    /// It is marked `declassify`.
    pub declassify: bool,
    pub cells: Cells,
}

impl Drop for TypedGlobal {
    fn drop(self) {
        let TypedGlobal {
            var: _var,
            fixed: _,
            declassify: _,
            cells: _cells,
        } = self;
    }
}

impl Var {
    ghost use Rattle.std.specs.Prelude.{◌≡◌, IfOk};

    /// A variable that is equal to this one.
    pub fn copy(&self, alloc: Global) -> Result<Var, AllocError>
        ensures { IfOk result (λ v. v ≡ self.now) }
    {
        Ok(Var {
            name: self.name.copy(alloc)?,
            span: self.span,
            ty: self.ty,
            marked: self.marked,
            unpriv: self.unpriv,
            holds: self.holds,
        })
    }
}
