// Whole typed programs.
ghost use Rattle.std.specs.Prelude.{IsTrue};
ghost use Rattle.typed_tree.specs.TypedTree.{tree_of};
ghost use Rattle.typed_tree.specs.WellFormed.{is_well_formed};

use crate::expression::TypedExpr;
use crate::function::TypedFn;
use crate::ids::ExprId;
use crate::part::Part;
use crate::types::StructInfo;
use crate::variable::TypedGlobal;
use crate::walk::add_parts;
use pt_base::{FnId, Listed};
use pt_tree::Signature;
use std::alloc::{AllocError, Global};

/// A typed program. Each list is numbered from 0: structs and globals in the order of their
/// declarations, functions in the order of their first ones.
#[derive(Drop)]
pub struct Typed {
    pub structs: Listed<StructInfo>,
    pub globals: Listed<TypedGlobal>,
    pub functions: Vec<TypedFn>,
    /// The outermost expressions of all bodies, in text order.
    pub exprs: Vec<TypedExpr>,
    pub ghost well_formed: { IsTrue (is_well_formed (tree_of structs globals functions.items exprs.items)) },
}

impl Typed {
    ghost use Rattle.std.specs.Prelude.{◌≡◌, ◌<◌, ◌↔◌, Some, IfOk, IsTrue, All, length, slice_get};
    ghost use Rattle.std.specs.Option.{option_copied};
    ghost use Rattle.pt_base.specs.declared.ids.FnId.{FnId};
    ghost use Rattle.typed_tree.specs.ExpressionTree.{view_expr};
    ghost use Rattle.typed_tree.specs.TypedTree.{tree_of};
    ghost use Rattle.typed_tree.specs.TypedView.{view_typed};
    ghost use Rattle.typed_tree.specs.WellFormed.{is_well_formed};
    ghost use Rattle.typed_tree.specs.Lookup.{signature_of, function_named, HasName, parts_in};

    /// The program of these parts, which are well formed together.
    pub fn new(
        structs: Listed<StructInfo>,
        globals: Listed<TypedGlobal>,
        functions: Vec<TypedFn>,
        exprs: Vec<TypedExpr>,
    ) -> Typed
        requires { IsTrue (is_well_formed (tree_of structs globals functions.items exprs.items)) }
        ensures { view_typed result ≡ tree_of structs globals functions.items exprs.items }
    {
        Typed {
            structs,
            globals,
            functions,
            exprs,
        }
    }

    /// What the function of this number is called with; None where no function has it.
    pub fn signature(&self, f: FnId) -> Option<&Signature>
        ensures { option_copied result ≡ signature_of (view_typed self.now) f }
    {
        let function = self.functions.get(f.0 as usize)?;
        Some(&function.signature)
    }

    /// The function with this name; None where no function has it.
    pub fn function_of(&self, name: &[u8]) -> Option<FnId>
        ensures is { result ≡ function_named (view_typed self.now) name.now }
        ensures only { (f : FnId) → (result ≡ Some f) ↔ HasName (view_typed self.now) f name.now }
    {
        self.find(name)
    }

    // the same, without the fact that a name is that of one function
    fn find(&self, name: &[u8]) -> Option<FnId>
        ensures { result ≡ function_named (view_typed self.now) name.now }
    {
        let mut number = 0;
        for function in &self.functions {
            if function.signature.name.as_slice() == name {
                return Some(FnId(number));
            }
            number += 1;
        }
        None
    }

    /// The outermost expression of this number.
    pub fn expr(&self, e: ExprId) -> &TypedExpr
        requires { e.0 < length (view_typed self.now).exprs }
        ensures { slice_get (view_typed self.now).exprs e.0 ≡ Some (view_expr result.now) }
    {
        &self.exprs[e.0 as usize]
    }

    /// The outermost expressions of the body of this function, in text order; none of a host.
    pub fn parts(&self, alloc: Global, f: FnId) -> Result<Vec<Part>, AllocError>
        ensures all { IfOk result (λ ps. ps.items ≡ parts_in (view_typed self.now) f) }
        ensures known { IfOk result (λ ps. All (λ p. p.expr.0 < length (view_typed self.now).exprs) ps.items) }
    {
        let parts = self.collect_parts(alloc, f)?;
        Ok(parts)
    }

    // the same, without the fact that each part is in the tree
    fn collect_parts(&self, alloc: Global, f: FnId) -> Result<Vec<Part>, AllocError>
        ensures { IfOk result (λ ps. ps.items ≡ parts_in (view_typed self.now) f) }
    {
        let mut parts = Vec::new(alloc);
        if let Some(function) = self.functions.get(f.0 as usize)
            && let Some(body) = &function.body
        {
            add_parts(body, &mut parts)?;
        }
        Ok(parts)
    }
}
