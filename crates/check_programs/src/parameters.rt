// The parameters of functions (C99 6.7.5.3).
ghost use Rattle.std.specs.Prelude.{◌≡◌, ◌++◌, map, length, is_some, IfOk, OnOk};
ghost use Rattle.pt_tree.specs.SpecifierTree.{view_spec, view_specs};
ghost use Rattle.pt_tree.specs.ProgramTree.{view_param};
ghost use Rattle.check_expressions.specs.EnvOf.{env_of};
ghost use Rattle.check_programs.specs.Gives.{GivesDeclared};
ghost use Rattle.check_programs.specs.Parameters as is;

use crate::function_marks::{FunctionMarks, marks_at};
use check_declarations::{
    Carrier, FaultKind, Findings, ObjectKind, Specified, TypeFault, is_fixed, is_mutable_pointer,
    judge_specifiers, note_attributes, note_if, note_object, object_type,
};
use check_expressions::{Names, Variable};
use pt_base::{Bytes, Span};
use pt_tree::{ParamDecl, Spec, SpecWord, Suffix, Word};
use std::alloc::{AllocError, Global};
use type_rules::Type;

/// How many parameters a function may have.
const MOST_PARAMS: usize = 8;

/// The parameters that a list stands for: `(void)` stands for none.
pub(crate) fn parameters_of(params: &[ParamDecl]) -> &[ParamDecl]
    ensures { map view_param result.now ≡ is.parameters_of (map view_param params.now) }
{
    match params {
        [] => params,
        [first, rest @ ..] => match rest {
            [] => { if is_void_param(first) { &[] } else { params } }
            [_, ..] => params,
        },
    }
}

/// Whether it is nothing but `void`.
fn is_void_param(param: &ParamDecl) -> bool
    ensures { result ≡ is.is_void_param (view_param param.now) }
{
    are_void_alone(&param.specs) && !is_pointer_form(param) && param.name.is_none()
}

/// Whether the specifiers are the one `void`.
fn are_void_alone(specs: &[Spec]) -> bool
    ensures { result ≡ is.are_void_alone (view_specs specs.now) }
{
    match specs {
        [] => false,
        [first, rest @ ..] => match rest {
            [] => is_void_spec(first),
            [_, ..] => false,
        },
    }
}

fn is_void_spec(spec: &Spec) -> bool
    ensures { result ≡ is.is_void_spec (view_spec spec.now) }
{
    match spec {
        Spec::Attribute(_, _) => false,
        Spec::Keyword(_, word) => is_void_word(*word),
        Spec::Struct(_, _, _) => false,
    }
}

fn is_void_word(word: SpecWord) -> bool
    ensures { result ≡ is.is_void_word word }
{
    matches!(word, SpecWord::Void)
}

/// Whether it is a pointer as it is written.
fn is_pointer_form(param: &ParamDecl) -> bool
    ensures { result ≡ is.is_pointer_form (view_param param.now) }
{
    param.pointer
        || match param.suffix {
            Suffix::Plain => false,
            Suffix::Open => true,
            Suffix::Sized(_) => true,
        }
}

/// Whether it is a pointer parameter of a host.
fn is_host_pointer(marks: &FunctionMarks, param: &ParamDecl) -> bool
    ensures { result ≡ is.is_host_pointer marks.now (view_param param.now) }
{
    !marks.defined && is_pointer_form(param)
}

/// Whether parameter number `number` is the ninth, or a host's pointer.
fn is_refused(marks: &FunctionMarks, number: usize, param: &ParamDecl) -> bool
    ensures { result ≡ is.is_refused marks.now number (view_param param.now) }
{
    number == MOST_PARAMS || is_host_pointer(marks, param)
}

/// Whether a definition doesn't name the parameter.
fn lacks_name(defines: bool, param: &ParamDecl) -> bool
    ensures { result ≡ is.lacks_name defines (view_param param.now) }
{
    defines && param.name.is_none()
}

/// Where it is named, or else its first specifier.
fn place_of(param: &ParamDecl, given: &Specified) -> Span
    ensures { result ≡ is.place_of (view_param param.now) given.now }
{
    match &param.name {
        Some(word) => word.span,
        None => given.first,
    }
}

/// The bytes of the name; none without a name.
fn name_bytes(alloc: Global, name: &Option<Word>) -> Result<Bytes, AllocError>
    ensures { IfOk result (λ b. b ≡ is.bytes_of name.now) }
{
    match name {
        Some(word) => word.bytes.copy(alloc),
        None => Ok(Bytes::new(Vec::new(alloc))),
    }
}

/// The type of parameter number `number`; Bad where the parameter is outside of the profile.
fn param_type(
    marks: &FunctionMarks,
    defines: bool,
    number: usize,
    param: &ParamDecl,
    given: &Specified,
) -> Type
    ensures { result ≡ is.param_type marks.now defines number (view_param param.now) given.now }
{
    if is_refused(marks, number, param) || lacks_name(defines, param) {
        Type::Bad
    } else {
        object_type(ObjectKind::Parameter, given, param.pointer, param.suffix)
    }
}

/// Parameter number `number` as a variable.
fn param_variable(
    alloc: Global,
    marks: &FunctionMarks,
    defines: bool,
    number: usize,
    param: &ParamDecl,
    given: &Specified,
) -> Result<Variable, AllocError>
    ensures { IfOk result (λ v. v ≡ is.param_variable marks.now defines number (view_param param.now) given.now) }
{
    let own = marks_at(marks.params.as_slice(), number);
    Ok(Variable {
        name: name_bytes(alloc, &param.name)?,
        span: place_of(param, given),
        ty: param_type(marks, defines, number, param, given),
        fixed: is_fixed(ObjectKind::Parameter, given, param.pointer, param.suffix),
        marked: own.marked,
        unpriv: own.unpriv,
    })
}

/// Adds the faults at a parameter's attributes; a host's pointer has none.
fn note_marks(
    faults: &mut Vec<TypeFault>,
    marks: &FunctionMarks,
    param: &ParamDecl,
    given: &Specified,
) -> Result<(), AllocError>
    ensures { OnOk result (faults.new.items ≡ faults.old.items ++ is.attribute_faults marks.now (view_param param.now) given.now) }
{
    if is_host_pointer(marks, param) {
        return Ok(());
    }
    let carrier = Carrier::Parameter {
        privileged: marks.privileged,
        host: !marks.defined,
        returns: is_mutable_pointer(given, param.pointer, param.suffix),
    };
    note_attributes(faults, carrier, given.attributes.as_slice())
}

/// Adds the faults of parameter number `number`, whose name is `repeated` in its scope.
fn note_param(
    faults: &mut Vec<TypeFault>,
    marks: &FunctionMarks,
    defines: bool,
    number: usize,
    param: &ParamDecl,
    given: &Specified,
    repeated: bool,
) -> Result<(), AllocError>
    ensures { OnOk result (faults.new.items ≡ faults.old.items ++ is.param_faults marks.now defines number (view_param param.now) given.now repeated) }
{
    let at = place_of(param, given);
    let refused = is_refused(marks, number, param);
    let nameless = lacks_name(defines, param);
    let kind = ObjectKind::Parameter;
    note_object(faults, kind, given, param.pointer, param.suffix, at)?;
    note_if(faults, refused, FaultKind::OutOfProfile, at)?;
    note_if(faults, nameless, FaultKind::OutOfProfile, given.first)?;
    note_if(faults, repeated, FaultKind::Redeclared, at)?;
    note_marks(faults, marks, param, given)
}

/// Declares a parameter as a variable, and says whether its scope has the name already.
fn add_variable(
    alloc: Global,
    names: &mut Names,
    is_named: bool,
    variable: Variable,
) -> Result<bool, AllocError>
    ensures env { OnOk result (env_of names.new ≡ is.with_param (env_of names.old) is_named variable) }
    ensures repeated { IfOk result (λ b. b ≡ is.is_repeated (env_of names.old) is_named variable) }
{
    if !is_named {
        names.add_unnamed(variable)?;
        return Ok(false);
    }
    let is_new = names.add_variable(alloc, variable)?;
    Ok(!is_new)
}

/// Declares a parameter of a function in the scope that is open.
fn declare_param(
    alloc: Global,
    marks: &FunctionMarks,
    defines: bool,
    names: &mut Names,
    findings: &mut Findings,
    param: &ParamDecl,
) -> Result<(), AllocError>
    ensures { GivesDeclared result names.new findings.old findings.new (is.declared_one marks.now defines (env_of names.old) findings.old.structs (view_param param.now)) }
{
    let number = names.variables.len();
    let given = judge_specifiers(alloc, findings, false, &param.specs)?;
    let variable = param_variable(alloc, marks, defines, number, param, &given)?;
    let repeated = add_variable(alloc, names, param.name.is_some(), variable)?;
    let faults = &mut findings.faults;
    note_param(faults, marks, defines, number, param, &given, repeated)?;
    Ok(())
}

/// Declares the parameters of a function in the scope that is open. `defines` says that the
/// declaration is a definition. They are the first variables.
pub(crate) fn declare_params(
    alloc: Global,
    marks: &FunctionMarks,
    defines: bool,
    names: &mut Names,
    findings: &mut Findings,
    params: &[ParamDecl],
) -> Result<(), AllocError>
    ensures { GivesDeclared result names.new findings.old findings.new (is.declared_all marks.now defines (env_of names.old) findings.old.structs (map view_param params.now)) }
{
    for param in params {
        declare_param(alloc, marks, defines, names, findings, param)?;
    }
    Ok(())
}
