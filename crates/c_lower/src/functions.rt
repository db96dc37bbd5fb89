// The lowering of functions.
ghost use Rattle.std.specs.Prelude.{◌≡◌, [], ◌++◌, Some, IfOk, OnOk, map, length};
ghost use Rattle.typed_tree.specs.Lookup.{function_at};
ghost use Rattle.typed_tree.specs.StatementTree as tree;
ghost use Rattle.typed_tree.specs.StatementTree.{BodyTree};
ghost use Rattle.typed_tree.specs.TypedTree.{FunctionTree, view_function};
ghost use Rattle.typed_tree.specs.TypedView.{view_typed};
ghost use Rattle.source_meaning.specs.Functions as meaning;
ghost use Rattle.pt_core.specs.CodeTree as core;
ghost use Rattle.lowering.specs.Functions as is;
ghost use Rattle.lowering.specs.FunctionParts.{IsDefined, MakesBody, variable_for, variables_of};
ghost use Rattle.lowering.specs.Names.{code_in};
ghost use Rattle.lowering.specs.Output.{output_of, added};

use crate::statements::statement;
use lowering::flow::{Onward, number};
use lowering::names::{Names, names_of};
use lowering::output::Lowering;
use lowering::temporary::Temporary;
use pt_base::{Bytes, FnId, Listed, Span};
use pt_core::{CoreFn, Stmt};
use pt_tree::Signature;
use std::alloc::{AllocError, Global};
use typed_tree::{Typed, TypedBody, TypedFn, Var, Vars, is_main};

/// The normal form of a function of the program, which has a body.
///
/// # Errors
///
/// Want of memory.
pub fn lower_function(alloc: Global, program: &Typed, f: FnId) -> Result<CoreFn, AllocError>
    requires { IsDefined (view_typed program.now) f }
    ensures { IfOk result (λ c. (g : FunctionTree) (b : BodyTree) → function_at (view_typed program.now) f ≡ Some g → g.body ≡ Some b → core.view_function c ≡ is.core_of (view_typed program.now) f.0 g b) }
{
    let Some(function) = program.functions.get(f.0 as usize) else {
        unreachable!()
    };
    let Some(body) = &function.body else {
        unreachable!()
    };
    lower_body(alloc, program, f, function, body)
}

// a function of the program with this number, whose body this is
fn lower_body(
    alloc: Global,
    program: &Typed,
    f: FnId,
    function: &TypedFn,
    body: &TypedBody,
) -> Result<CoreFn, AllocError>
    ensures { IfOk result (λ c. core.view_function c ≡ is.core_of (view_typed program.now) f.0 (view_function function.now) (tree.view_body body.now)) }
{
    let variables = function.vars.as_slice();
    let names = names_of(program, function);
    let params = function.signature.params.as_slice().len();
    // a function has at most 8 parameters
    if params > u8::MAX as usize {
        return Err(AllocError);
    }
    let made = lowered(alloc, &names, &function.signature, body)?;
    let vars = with_temporaries(alloc, variables, &made.temps)?;
    Ok(CoreFn {
        id: f,
        params: params as u8,
        vars,
        body: made.stmts,
        end: brace_of(body),
    })
}

// the statements and the temporaries of a body
fn lowered(
    alloc: Global,
    names: &Names<'_>,
    signature: &Signature,
    body: &TypedBody,
) -> Result<Lowering, AllocError>
    ensures { IfOk result (λ l. MakesBody (code_in names.now) (tree.view_body body.now) (length names.now.variables.now) (is.main_end signature.now) l) }
{
    let first = names.variables.len();
    // 2^32 variables don't fit into memory
    if first > u32::MAX as usize {
        return Err(AllocError);
    }
    let mut lowering = Lowering::starting(alloc, first as u32);
    statement(alloc, names, body, Onward::Nowhere, &mut lowering)?;
    end_main(signature, &mut lowering)?;
    Ok(lowering)
}

// reaching the closing brace of main returns 0 (C99 5.1.2.2.3)
fn end_main(signature: &Signature, lowering: &mut Lowering) -> Result<(), AllocError>
    ensures { OnOk result (output_of lowering.new ≡ added (output_of lowering.old) (is.main_end signature.now) []) }
{
    if is_main(signature) {
        lowering.add(Stmt::Return {
            value: Some(number(0)),
        })?;
    }
    Ok(())
}

// a function's variables, and its temporaries behind them
fn with_temporaries(
    alloc: Global,
    variables: &[Var],
    temps: &[Temporary],
) -> Result<Vars, AllocError>
    ensures { IfOk result (λ vars. vars ≡ variables.now ++ variables_of temps.now) }
{
    let mut all = Vec::new(alloc);
    for variable in variables {
        all.push(variable.copy(alloc)?)?;
    }
    for temporary in temps {
        all.push(variable_of(alloc, *temporary))?;
    }
    Ok(Listed::new(all))
}

// a temporary as a variable: it has no name and no place in the text
fn variable_of(alloc: Global, temporary: Temporary) -> Var
    ensures { result ≡ variable_for temporary }
{
    Var {
        name: Bytes::new(Vec::new(alloc)),
        span: Span { from: 0, to: 0 },
        ty: temporary.ty,
        marked: false,
        unpriv: false,
        holds: temporary.holds,
    }
}

// the closing brace of a body
fn brace_of(body: &TypedBody) -> Span
    ensures { result ≡ meaning.brace_of (tree.view_body body.now) }
{
    match body {
        TypedBody::Block(span, _) => Span {
            from: span.to.saturating_sub(1),
            to: span.to,
        },
        TypedBody::Empty(_)
        | TypedBody::Evaluate(_, _)
        | TypedBody::Declare(_)
        | TypedBody::If(_, _, _, _)
        | TypedBody::While(_, _, _)
        | TypedBody::Do(_, _, _)
        | TypedBody::For(_, _, _, _, _)
        | TypedBody::Return(_, _)
        | TypedBody::Break(_)
        | TypedBody::Continue(_)
        | TypedBody::Switch(_, _, _, _) => Span { from: 0, to: 0 },
    }
}
