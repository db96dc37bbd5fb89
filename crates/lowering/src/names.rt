// What the expressions and statements of a function name.
ghost use Rattle.std.specs.Prelude.{◌≡◌, length, IfOk};
ghost use Rattle.pt_core.specs.Types.{type_at, field_type as type_of_field};
ghost use Rattle.typed_tree.specs.Sizes.{fields_of};
ghost use Rattle.typed_tree.specs.TypedTree.{view_function};
ghost use Rattle.typed_tree.specs.TypedView.{view_typed};
ghost use Rattle.lowering.specs.Functions.{code_of};
ghost use Rattle.lowering.specs.Names.{scope_of, code_in};

use pt_base::{GlobalId, IntType, VarId};
use std::alloc::AllocError;
use typed_tree::{Field, Typed, TypedFn, Var, VarTy};

/// The program, and the variables of the function that is lowered.
#[derive(Clone, Copy)]
pub struct Names<'a> {
    pub program: &'a Typed,
    pub variables: &'a [Var],
}

#[tactic(auto, unfolding(crate::specs::Names::scope_of))]
impl<'a> Names<'a> {
    /// The type of a variable; int where there is none of this number.
    pub fn variable_type(&self, v: VarId) -> VarTy
        ensures { result ≡ type_at (scope_of self.now).variables v.0 }
    {
        match self.variables.get(v.0 as usize) {
            Some(variable) => variable.ty,
            None => VarTy::Int(IntType::Int),
        }
    }

    /// The type of a global; int where there is none of this number.
    pub fn global_type(&self, g: GlobalId) -> VarTy
        ensures { result ≡ type_at (scope_of self.now).globals g.0 }
    {
        match self.program.globals.as_slice().get(g.0 as usize) {
            Some(global) => global.var.ty,
            None => VarTy::Int(IntType::Int),
        }
    }

    /// The type of a field of an object; another object than a struct has its own type.
    pub fn field_type(&self, ty: VarTy, field: u32) -> VarTy
        ensures { result ≡ type_of_field (scope_of self.now).structs ty field }
    {
        match ty {
            VarTy::Struct(n) => self.type_in(n, field),
            VarTy::Int(_) | VarTy::Array { .. } | VarTy::Pointer { .. } => ty,
        }
    }

    // the type of a field of this struct; int where there is none
    fn type_in(&self, structure: u32, field: u32) -> VarTy
        ensures { result ≡ type_of_field (scope_of self.now).structs (VarTy.Struct structure) field }
    {
        match self.fields(structure).get(field as usize) {
            Some(field) => field.ty,
            None => VarTy::Int(IntType::Int),
        }
    }

    /// How many structs there are. 2^32 of them don't fit into memory.
    pub fn count_of_structs(&self) -> Result<u32, AllocError>
        ensures { IfOk result (λ n. n ≡ length (scope_of self.now).structs) }
    {
        let count = self.program.structs.as_slice().len();
        if count > u32::MAX as usize {
            return Err(AllocError);
        }
        Ok(count as u32)
    }

    /// The fields of a struct, none where there is none of this number.
    pub fn fields(&self, structure: u32) -> &[Field]
        ensures { result.now ≡ fields_of (scope_of self.now).structs structure }
    {
        match self.program.structs.as_slice().get(structure as usize) {
            Some(info) => info.fields.as_slice(),
            None => &[],
        }
    }
}

/// What the code of a function of the program names.
#[tactic(auto, unfolding(crate::specs::Names::scope_of))]
pub fn names_of<'a>(program: &'a Typed, function: &'a TypedFn) -> Names<'a>
    ensures code { code_in result ≡ code_of (view_typed program.now) (view_function function.now) }
    ensures variables { result.variables.now ≡ function.now.vars }
{
    Names {
        program,
        variables: function.vars.as_slice(),
    }
}
