// Functions: declarations and definitions (C99 6.7.5.3, 6.9.1).
ghost use Rattle.std.specs.Prelude.{◌≡◌, map, is_some, IfOk, OnOk};
ghost use Rattle.pt_tree.specs.ProgramTree.{view_function};
ghost use Rattle.typed_tree.specs.TypedTree as typed;
ghost use Rattle.check_expressions.specs.Environment.{find_in};
ghost use Rattle.check_expressions.specs.EnvOf.{env_of};
ghost use Rattle.check_programs.specs.Functions as is;
ghost use Rattle.check_programs.specs.Gives.{GivesDeclared, GivesHead, GivesJudged};
ghost use Rattle.check_programs.specs.ProgressOf.{progress_of};

use crate::agreement::differ;
use crate::entries::{entry_of, types_of};
use crate::function_marks::FunctionMarks;
use crate::parameters::{declare_params, parameters_of};
use crate::progress::Progress;
use check_declarations::{
    Carrier, Findings, NameTable, Structs, cells_of, judge_specifiers, note_attributes,
    note_result, result_type,
};
use check_expressions::{Callable, Meaning, Names, Variable};
use pt_base::{Bytes, FnId, IntType, Listed, Span};
use pt_tree::Function;
use std::alloc::{AllocError, Global};
use type_rules::Type;
use typed_tree::TypedFn;

/// The most cells that the variables of a function may have together.
const VARIABLES_LIMIT: u32 = 16_384;

/// Whether a declaration is a definition.
pub(crate) fn is_definition(function: &Function) -> bool
    ensures { result ≡ is_some (view_function function.now).body }
{
    match &function.body {
        Some(_) => true,
        None => false,
    }
}

/// Judges what stands before a function's name; gives the type of its result.
fn judge_result(
    alloc: Global,
    privileged: bool,
    findings: &mut Findings,
    function: &Function,
) -> Result<Type, AllocError>
    ensures { GivesJudged result findings.old findings.new (is.result_of privileged findings.old.structs (view_function function.now)) }
{
    let declarator = &function.declarator;
    let (pointer, suffix) = (declarator.pointer, declarator.suffix);
    let given = judge_specifiers(alloc, findings, true, &function.specs)?;
    let faults = &mut findings.faults;
    note_result(faults, &given, pointer, suffix, declarator.name.span)?;
    let carrier = Carrier::Function { privileged };
    note_attributes(faults, carrier, given.attributes.as_slice())?;
    Ok(result_type(&given, pointer, suffix))
}

/// Opens the scope of a function's parameters, and declares them there.
fn judge_params(
    alloc: Global,
    marks: &FunctionMarks,
    names: &mut Names,
    findings: &mut Findings,
    function: &Function,
) -> Result<(), AllocError>
    ensures { GivesDeclared result names.new findings.old findings.new (is.params_of_function marks.now (env_of names.old) findings.old.structs (view_function function.now)) }
{
    let defines = is_definition(function);
    let params = parameters_of(&function.params);
    names.open_scope(alloc)?;
    declare_params(alloc, marks, defines, names, findings, params)?;
    Ok(())
}

/// What a function of this name and result is called with, whose parameters are the variables.
fn callable(
    alloc: Global,
    names: &Names,
    name: &[u8],
    result_ty: Type,
) -> Result<Callable, AllocError>
    ensures { IfOk result (λ c. c ≡ is.callable_of (env_of names.now) name.now result_ty) }
{
    let types = types_of(alloc, &names.variables)?;
    Ok(Callable {
        name: Bytes::new(Vec::from_slice(alloc, name)?),
        result: result_ty,
        params: Listed::new(types),
    })
}

/// Judges a function's declarator, opens the scope of its parameters, and declares them there. Gives
/// what the function is called with.
#[tactic(auto, unfolding(crate::specs::Functions::head_of))]
pub(crate) fn judge_head(
    alloc: Global,
    marks: &FunctionMarks,
    names: &mut Names,
    findings: &mut Findings,
    function: &Function,
) -> Result<Callable, AllocError>
    ensures { GivesHead result names.new findings.old findings.new (is.head_of marks.now (env_of names.old) findings.old.structs (view_function function.now)) }
{
    let result_ty = judge_result(alloc, marks.privileged, findings, function)?;
    judge_params(alloc, marks, names, findings, function)?;
    let name = function.declarator.name.bytes.as_slice();
    let callable = callable(alloc, names, name, result_ty)?;
    Ok(callable)
}

/// What the file says that a name means.
fn meaning_in(file: &NameTable<Meaning>, name: &[u8]) -> Option<Meaning>
    ensures { result ≡ find_in file.now name.now }
{
    let number = file.number_of(name)?;
    file.get(number).copied()
}

/// The function that a name is already.
fn function_in(meaning: Option<Meaning>) -> Option<FnId>
    ensures { result ≡ is.function_in meaning }
{
    match meaning {
        None => None,
        Some(Meaning::Function(k)) => Some(k),
        Some(Meaning::Global(_)) => None,
        Some(Meaning::Local(_)) => None,
    }
}

/// The function that the name is already.
fn earlier(progress: &Progress, function: &Callable) -> Option<FnId>
    ensures { result ≡ is.earlier (progress_of progress.now) function.now }
{
    function_in(meaning_in(&progress.names.file, function.name.as_slice()))
}

/// Whether the variables of a function have too many cells together.
pub(crate) fn are_too_large(structs: &Structs, variables: &[Variable]) -> bool
    ensures { result ≡ is.are_too_large structs.now variables.now }
{
    let mut room = VARIABLES_LIMIT;
    for variable in variables {
        let cells = cells_of(structs, variable.ty);
        if cells > room {
            return true;
        }
        room -= cells;
    }
    false
}

/// Whether a definition is one of main that a program can begin with (C99 5.1.2.2.1).
pub(crate) fn is_start(function: &Callable, defines: bool) -> bool
    ensures { result ≡ is.is_start function.now defines }
{
    function.name.as_slice() == b"main".as_slice()
        && defines
        && is_int(function.result)
        && function.params.as_slice().len() == 0
}

fn is_int(ty: Type) -> bool
    ensures { result ≡ is.is_int ty }
{
    match ty {
        Type::Int(t) => t == IntType::Int,
        Type::Bad | Type::Void | Type::Struct(_) | Type::Array { .. } | Type::Pointer { .. } =>
            false,
    }
}

/// Makes a function known that isn't yet, and gives its number. Its parameters are the variables.
pub(crate) fn declare(
    alloc: Global,
    marks: &FunctionMarks,
    progress: &mut Progress,
    function: Callable,
    at: Span,
) -> Result<usize, AllocError>
    ensures number { IfOk result (λ k. k ≡ is.number_in (progress_of progress.old) (is.earlier (progress_of progress.old) function)) }
    ensures progress { OnOk result (progress_of progress.new ≡ is.declared marks.now (progress_of progress.old) function at) }
    ensures walk { OnOk result (progress.new.walk ≡ progress.old.walk) }
{
    if let Some(k) = earlier(progress, &function) {
        return Ok(k.0 as usize);
    }
    let number = progress.names.functions.len();
    let entry = entry_of(alloc, marks, &function, &progress.names.variables, at)?;
    progress.names.add_function(alloc, function)?;
    progress.functions.push(entry)?;
    Ok(number)
}

/// Whether a function of another type or with a body has this number.
fn clashes_with(progress: &Progress, k: FnId, function: &Callable, defines: bool) -> bool
    ensures { result ≡ is.clashes_with (progress_of progress.now) k function.now defines }
{
    has_other_types(&progress.names, k, function) || defines && has_body(&progress.functions, k)
}

fn has_other_types(names: &Names, k: FnId, function: &Callable) -> bool
    ensures { result ≡ is.has_other_types (env_of names.now) k function.now }
{
    match names.function_at(k) {
        Some(other) => differ(other, function),
        None => false,
    }
}

/// Whether the function of this number has a body.
fn has_body(functions: &[TypedFn], k: FnId) -> bool
    ensures { result ≡ is.has_body (map typed.view_function functions.now) k }
{
    match functions.get(k.0 as usize) {
        Some(f) => f.body.is_some(),
        None => false,
    }
}

/// Whether the name is already what doesn't agree with this declaration or definition.
pub(crate) fn is_redeclared(progress: &Progress, function: &Callable, defines: bool) -> bool
    ensures { result ≡ is.is_redeclared (progress_of progress.now) function.now defines }
{
    match meaning_in(&progress.names.file, function.name.as_slice()) {
        None => false,
        Some(Meaning::Function(k)) => clashes_with(progress, k, function, defines),
        Some(Meaning::Global(_)) => true,
        Some(Meaning::Local(_)) => true,
    }
}
