// Function definitions (C99 6.9.1), and whole items that are functions.
ghost use Rattle.std.specs.Prelude.{◌≡◌, ◌||◌, length, map, option_map};
ghost use Rattle.pt_base.specs.Gives.{GivesWith};
ghost use Rattle.pt_tree.specs.ProgramTree as parsed;
ghost use Rattle.pt_tree.specs.StatementTree.{view_block, view_stmt};
ghost use Rattle.typed_tree.specs.StatementTree.{view_body};
ghost use Rattle.typed_tree.specs.TypedTree.{view_function};
ghost use Rattle.check_expressions.specs.EnvOf.{env_of};
ghost use Rattle.check_statements.specs.Gives.{progress_of as walk_of};
ghost use Rattle.check_programs.specs.Blocks.{block_in};
ghost use Rattle.check_programs.specs.Functions as is;
ghost use Rattle.check_programs.specs.Gives.{GivesBlock, GivesChecked, Reaches};
ghost use Rattle.check_programs.specs.ProgressOf.{progress_of};

use crate::entries::vars_of;
use crate::function_marks::FunctionMarks;
use crate::functions::{
    are_too_large, declare, is_definition, is_redeclared, is_start, judge_head,
};
use crate::progress::Progress;
use check_declarations::{FaultKind, note_if};
use check_expressions::{Callable, Names};
use check_statements::Walk;
use pt_base::{Listed, Span};
use pt_tree::{Block, Function, Stmt};
use std::alloc::{AllocError, Global};
use type_rules::Type;
use typed_tree::{TypedBody, TypedFn, Var};

/// Gives a function the place of its name in its definition, its variables and its body.
fn give_body(function: &mut TypedFn, at: Span, vars: Vec<Var>, body: TypedBody)
    ensures { view_function function.new ≡ is.with_parts (view_function function.old) at vars.items (view_body body) }
{
    function.name = at;
    function.vars = Listed::new(vars);
    function.body = Some(body);
}

/// Gives the function of this number what its definition says.
#[tactic(auto, using(crate::proofs::BodyLemmas::given_body))]
fn set_body(functions: &mut [TypedFn], number: usize, at: Span, vars: Vec<Var>, body: TypedBody)
    ensures { map view_function functions.new ≡ is.with_body (map view_function functions.old) number at vars.items (view_body body) }
{
    if number < functions.len() {
        give_body(&mut functions[number], at, vars, body);
    }
}

/// Judges the outermost block of a function with this result type, whose parameters' scope is open.
#[tactic(auto, unfolding(crate::specs::Blocks::block_in))]
fn check_block(
    alloc: Global,
    names: &mut Names,
    walk: &mut Walk,
    ty: Type,
    items: &[Stmt],
) -> Result<Vec<TypedBody>, AllocError>
    ensures { GivesBlock result (walk_of names.old walk.old) (walk_of names.new walk.new) (block_in ty (env_of names.old) walk.old.findings.structs (length walk.old.exprs.items) (map view_stmt items.now)) }
{
    let bodies = check_statements::check_block(alloc, names, walk, ty, items)?;
    Ok(bodies)
}

/// Judges the body of the function of this number, whose name stands at `at`.
fn define(
    alloc: Global,
    progress: &mut Progress,
    number: usize,
    ty: Type,
    at: Span,
    body: &Block,
) -> Result<(), AllocError>
    ensures { GivesChecked result progress.old progress.new (is.defined (progress_of progress.old) number ty at (view_block body.now)) }
{
    let names = &mut progress.names;
    let walk = &mut progress.walk;
    let statements = check_block(alloc, names, walk, ty, &body.items)?;
    let too_large = are_too_large(&walk.findings.structs, &names.variables);
    let faults = &mut walk.findings.faults;
    note_if(faults, too_large, FaultKind::TooLarge, at)?;
    let vars = vars_of(alloc, &progress.names.variables)?;
    let _ = progress.names.take_variables(alloc);
    let block = TypedBody::block(body.span, statements);
    set_body(&mut progress.functions, number, at, vars, block);
    Ok(())
}

/// Judges the body of the function of this number, where there is one, and ends the function.
fn complete(
    alloc: Global,
    progress: &mut Progress,
    number: usize,
    ty: Type,
    at: Span,
    body: &Option<Block>,
) -> Result<(), AllocError>
    ensures { GivesChecked result progress.old progress.new (is.with_definition (progress_of progress.old) number ty at (option_map view_block body.now)) }
{
    match body {
        None => {
            let _ = progress.names.take_variables(alloc);
            Ok(())
        }
        Some(block) => define(alloc, progress, number, ty, at, block),
    }
}

/// Whether a program can begin with this function, or could before it.
fn has_start(has_main: bool, callable: &Callable, defines: bool) -> bool
    ensures { result ≡ (is.is_start callable.now defines || has_main) }
{
    is_start(callable, defines) || has_main
}

/// Judges a function's declarator, opens the scope of its parameters, and declares them there.
fn begin(
    alloc: Global,
    marks: &FunctionMarks,
    progress: &mut Progress,
    function: &Function,
) -> Result<Callable, AllocError>
    ensures { let before = progress_of progress.old in let h = is.head_of marks.now before.env before.structs (parsed.view_function function.now) in GivesWith (λ c. c) result h.callable (Reaches progress.old progress.new (is.with_head before h) h.faults) }
{
    let findings = &mut progress.walk.findings;
    let callable = judge_head(alloc, marks, &mut progress.names, findings, function)?;
    Ok(callable)
}

/// Judges a function behind its declarator.
#[tactic(auto, unfolding(crate::specs::Functions::completed))]
fn end(
    alloc: Global,
    marks: &FunctionMarks,
    progress: &mut Progress,
    callable: Callable,
    function: &Function,
) -> Result<(), AllocError>
    ensures { GivesChecked result progress.old progress.new (is.completed marks.now (progress_of progress.old) callable (parsed.view_function function.now)) }
{
    let at = function.declarator.name.span;
    let redeclared = is_redeclared(progress, &callable, is_definition(function));
    let faults = &mut progress.walk.findings.faults;
    note_if(faults, redeclared, FaultKind::Redeclared, at)?;
    let ty = callable.result;
    let number = declare(alloc, marks, progress, callable, at)?;
    complete(alloc, progress, number, ty, at, &function.body)?;
    Ok(())
}

/// Judges the declaration or definition of a function, by what all its declarations say of it.
pub(crate) fn check_function(
    alloc: Global,
    marks: &FunctionMarks,
    progress: &mut Progress,
    function: &Function,
) -> Result<(), AllocError>
    ensures { GivesChecked result progress.old progress.new (is.checked_function marks.now (progress_of progress.old) (parsed.view_function function.now)) }
{
    let callable = begin(alloc, marks, progress, function)?;
    let defines = is_definition(function);
    progress.has_main = has_start(progress.has_main, &callable, defines);
    end(alloc, marks, progress, callable, function)?;
    Ok(())
}
