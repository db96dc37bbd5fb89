// The types of objects, and what the structs of a program are.
use pt_base::{Bytes, IntType, Listed};
use pt_tree::Elem;
use std::alloc::{AllocError, Global};

/// The type of an object or of a value. A value has no array type: it decays.
#[derive(Clone, Copy, Debug, PartialEq, Eq)]
pub enum VarTy {
    Int(IntType),
    /// The struct of this number.
    Struct(u32),
    /// So many elements, at least one.
    Array { elem: Elem, count: u32 },
    /// A pointer to this. `fixed` is a pointee that is const.
    Pointer { elem: Elem, fixed: bool },
}

/// A field of a struct.
pub struct Field {
    pub name: Bytes,
    pub ty: VarTy,
    /// It is marked `priv`.
    pub marked: bool,
}

impl Drop for Field {
    fn drop(self) {
        let Field {
            name: _name,
            ty: _,
            marked: _,
        } = self;
    }
}

/// The fields of a struct, in order.
pub type Fields = Listed<Field>;

/// A struct: its tag and its fields.
pub struct StructInfo {
    pub name: Bytes,
    pub fields: Fields,
}

impl Drop for StructInfo {
    fn drop(self) {
        let StructInfo {
            name: _name,
            fields: _fields,
        } = self;
    }
}

impl Field {
    ghost use Rattle.std.specs.Prelude.{◌≡◌, IfOk};

    // a field that is equal to this one
    fn copy(&self, alloc: Global) -> Result<Field, AllocError>
        ensures { IfOk result (λ f. f ≡ self.now) }
    {
        Ok(Field {
            name: self.name.copy(alloc)?,
            ty: self.ty,
            marked: self.marked,
        })
    }
}

impl StructInfo {
    ghost use Rattle.std.specs.Prelude.{◌≡◌, IfOk};

    /// A struct that is equal to this one.
    pub fn copy(&self, alloc: Global) -> Result<StructInfo, AllocError>
        ensures { IfOk result (λ s. s ≡ self.now) }
    {
        let mut fields = Vec::new(alloc);
        for field in self.fields.as_slice() {
            fields.push(field.copy(alloc)?)?;
        }
        Ok(StructInfo {
            name: self.name.copy(alloc)?,
            fields: Listed::new(fields),
        })
    }
}
