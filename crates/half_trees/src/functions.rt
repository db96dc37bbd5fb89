// Functions with their bodies.
ghost use Rattle.std.specs.Prelude.{◌≡◌, ◌++◌, IfOk, drop, false, map, take};
ghost use Rattle.std.specs.Option.{option_copied};
ghost use Rattle.pt_tree.specs.SpecifierTree.{view_spec};
ghost use Rattle.pt_tree.specs.StatementTree.{view_block, view_stmt};
ghost use Rattle.pt_tree.specs.ProgramTree.{view_item, view_param};
ghost use Rattle.pt_core.specs.CodeTree.{view_function};
ghost use Rattle.half_trees.specs.Functions as functions;
ghost use Rattle.half_trees.specs.Views.{view_half};

use crate::declarations::object;
use crate::half::{Half, Scope};
use crate::items::{function_declarator, function_specs};
use crate::names::{NOWHERE, function_name, local_name};
use crate::parameters::{parameter, parameters_or_void};
use crate::specifiers::{Marks, push_result};
use crate::statements::statements;
use pt_core::CoreFn;
use pt_tree::{Block, Function, Item, ParamDecl, Signature, Spec, Stmt};
use std::alloc::{AllocError, Global};
use typed_tree::{StructInfo, Var};

// How a variable is marked: not both `priv` and `unpriv`.
fn variable_marks(var: &Var) -> Marks
    ensures { result ≡ record { private = var.now.marked; unpriv = functions.is_only_unpriv var.now; declassify = false } }
{
    Marks {
        private: var.marked,
        unpriv: var.unpriv && !var.marked,
        declassify: false,
    }
}

// The first variables as parameters.
fn parameters(
    alloc: Global,
    structs: &[StructInfo],
    vars: &[Var],
) -> Result<Vec<ParamDecl>, AllocError>
    ensures { IfOk result (λ v. map view_param v.items ≡ functions.parameters_from structs.now 0 vars.now) }
{
    let mut trees = Vec::with_capacity(alloc, vars.len())?;
    for n in 0..vars.len() {
        let marks = variable_marks(&vars[n]);
        trees.push(parameter(alloc, structs, marks, vars[n].ty, n)?)?;
    }
    Ok(trees)
}

// The declarations of the variables from this number on.
fn locals(
    alloc: Global,
    structs: &[StructInfo],
    first: usize,
    vars: &[Var],
) -> Result<Vec<Stmt>, AllocError>
    ensures { IfOk result (λ v. map view_stmt v.items ≡ functions.locals_from structs.now first (drop first vars.now)) }
{
    let mut trees = Vec::new(alloc);
    for n in first..vars.len() {
        let marks = variable_marks(&vars[n]);
        let name = local_name(alloc, n)?;
        let declared = object(alloc, structs, marks, vars[n].ty, name, None)?;
        trees.push(Stmt::Declare(declared))?;
    }
    Ok(trees)
}

// The first variables, or all of them.
fn first_vars(count: usize, vars: &[Var]) -> &[Var]
    ensures { result.now ≡ take count vars.now }
{
    if count < vars.len() {
        &vars[..count]
    } else {
        vars
    }
}

// The marks and the result of a function, if it is known what it is called with.
fn head_specs(alloc: Global, signature: Option<&Signature>) -> Result<Vec<Spec>, AllocError>
    ensures { IfOk result (λ v. map view_spec v.items ≡ functions.head_specs (option_copied signature.entry)) }
{
    match signature {
        Some(signature) => function_specs(alloc, signature),
        None => {
            let mut specs = Vec::new(alloc);
            push_result(None, &mut specs)?;
            Ok(specs)
        }
    }
}

// The body of a function: the declarations of its variables and its statements.
fn body_tree(alloc: Global, half: &Half<'_>, function: &CoreFn) -> Result<Block, AllocError>
    ensures { IfOk result (λ b. view_block b ≡ functions.body_tree (view_half half.now) (view_function function.now)) }
{
    let variables = function.vars.as_slice();
    let scope = Scope { half, variables };
    let mut items = locals(alloc, half.structs, function.params as usize, variables)?;
    let mut rest = statements(&function.body, alloc, &scope)?;
    items.append(&mut rest)?;
    Ok(Block {
        span: NOWHERE,
        items,
    })
}

impl<'a> Half<'a> {
    /// A function with its body. Statements that are nested take stack.
    pub fn function_item(&self, alloc: Global, function: &CoreFn) -> Result<Item, AllocError>
        ensures { IfOk result (λ i. view_item i ≡ functions.function_item (view_half self.now) (view_function function.now)) }
    {
        let f = function.id.0;
        let specs = head_specs(alloc, self.signature(f))?;
        let name = function_name(alloc, f as usize, self.signature(f))?;
        let own = first_vars(function.params as usize, function.vars.as_slice());
        let params = parameters(alloc, self.structs, own)?;
        let params = parameters_or_void(alloc, params)?;
        let body = body_tree(alloc, self, function)?;
        Ok(Item::Function(Function {
            span: NOWHERE,
            specs,
            declarator: function_declarator(name),
            params,
            body: Some(body),
        }))
    }
}
