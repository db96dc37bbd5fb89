// What the numbers in a function's code name.
ghost use Rattle.std.specs.Prelude.{◌≡◌};
ghost use Rattle.pt_core.specs.Types.{global_type, pointee_cells, type_at};
ghost use Rattle.pt_core.specs.Values.{is_type};
ghost use Rattle.pt_int.specs.Operator.{binary_type, unary_type};
ghost use Rattle.core_code.specs.Resolved.{context_of, count_of, size_of};

use crate::globals::Globals;
use crate::struct_layout::StructLayout;
use pt_base::{GlobalId, IntType, VarId};
use pt_int::{BinOp, UnOp};
use typed_tree::{Var, VarTy};

/// What the numbers in a function's code name.
#[derive(Clone, Copy)]
pub struct Symbols<'a> {
    pub layout: &'a StructLayout<'a>,
    pub globals: &'a Globals<'a>,
    pub variables: &'a [Var],
}

/// The type of a variable; int where there is none of this number.
pub fn variable_type(symbols: &Symbols<'_>, v: VarId) -> VarTy
    ensures { result ≡ type_at (context_of symbols.now).variables v.0 }
{
    match symbols.variables.get(v.0 as usize) {
        Some(variable) => variable.ty,
        None => VarTy::Int(IntType::Int),
    }
}

/// The type of a global; int where there is none of this number.
pub fn type_of_global(symbols: &Symbols<'_>, g: GlobalId) -> VarTy
    ensures { result ≡ global_type (context_of symbols.now) g.0 }
{
    symbols.globals.type_of(g)
}

/// How many cells each element has to which a pointer of this type points.
pub fn pointed_size(symbols: &Symbols<'_>, ty: VarTy) -> Option<u64>
    ensures { result ≡ size_of symbols.now.layout.now ty }
{
    match ty {
        VarTy::Pointer { elem, .. } => Some(symbols.layout.element_cells(elem)),
        VarTy::Int(_) | VarTy::Struct(_) | VarTy::Array { .. } => None,
    }
}

/// How many cells the elements have to which a pointer of this type points; 0 where it is no
/// pointer's.
pub fn element_cells(symbols: &Symbols<'_>, ty: VarTy) -> u64
    ensures { result ≡ pointee_cells (context_of symbols.now) ty }
{
    match ty {
        VarTy::Pointer { elem, .. } => symbols.layout.element_cells(elem),
        VarTy::Int(_) | VarTy::Struct(_) | VarTy::Array { .. } => 0,
    }
}

/// How many elements an array has.
pub fn elements(ty: VarTy) -> Option<u32>
    ensures { result ≡ count_of ty }
{
    match ty {
        VarTy::Array { count, .. } => Some(count),
        VarTy::Int(_) | VarTy::Struct(_) | VarTy::Pointer { .. } => None,
    }
}

/// Whether it is this integer type.
pub fn is_int(ty: VarTy, to: IntType) -> bool
    ensures { result ≡ is_type ty to }
{
    match ty {
        VarTy::Int(t) => t == to,
        VarTy::Struct(_) | VarTy::Array { .. } | VarTy::Pointer { .. } => false,
    }
}

/// The type of an operator before its operand.
pub fn type_of_one(op: UnOp, ty: IntType) -> VarTy
    ensures { result ≡ VarTy.Int (unary_type op ty) }
{
    match op {
        UnOp::Not => VarTy::Int(IntType::Int),
        UnOp::Minus | UnOp::Plus | UnOp::Flip => VarTy::Int(ty),
    }
}

/// The type of an operator between two integers.
pub fn type_of_two(op: BinOp, ty: IntType) -> VarTy
    ensures { result ≡ VarTy.Int (binary_type op ty) }
{
    match op {
        BinOp::Lt | BinOp::Gt | BinOp::Le | BinOp::Ge | BinOp::Eq | BinOp::Ne => {
            VarTy::Int(IntType::Int)
        }
        _ => VarTy::Int(ty),
    }
}
