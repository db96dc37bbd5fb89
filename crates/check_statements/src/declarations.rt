// Declarations of a function's variables (C99 6.7).
ghost use Rattle.std.specs.Prelude.{◌≡◌, ◌++◌, map, length, IfOk, OnOk};
ghost use Rattle.check_expressions.specs.EnvOf.{env_of};
ghost use Rattle.check_expressions.specs.Environment.{with_variable};
ghost use Rattle.pt_tree.specs.StatementTree.{view_declaration, view_init_declarator};
ghost use Rattle.check_statements.specs.Declarations as is;
ghost use Rattle.check_statements.specs.Gives.{GivesDeclared, GivesDeclaredAll, GivesDeclaring, progress_of, state_of};

use crate::initialisers::initialised;
use crate::walk::Walk;
use check_declarations::{
    Carrier, FaultKind, ObjectKind, Specified, Structs, TypeFault, is_fixed, judge_specifiers,
    marks_among, note_attributes, note_if, note_object, note_size, object_type,
};
use check_expressions::{Names, Variable, as_number};
use pt_base::{Listed, VarId};
use pt_tree::{Declaration, Declarator, InitDeclarator};
use std::alloc::{AllocError, Global};
use type_rules::Type;
use typed_tree::{TypedDeclaration, TypedDeclarator};

/// A declaration in a function.
pub(crate) fn declared(
    alloc: Global,
    names: &mut Names,
    walk: &mut Walk,
    d: &Declaration,
) -> Result<TypedDeclaration, AllocError>
    ensures { GivesDeclaring result (progress_of names.old walk.old) (progress_of names.new walk.new) (is.declared (state_of names.old walk.old) (view_declaration d.now)) }
{
    let given = judge_specifiers(alloc, &mut walk.findings, false, &d.specs)?;
    note_attributes(
        &mut walk.findings.faults,
        carrier_of(&d.declarators),
        given.attributes.as_slice(),
    )?;
    let ds = declared_all(alloc, names, walk, &given, &d.declarators)?;
    Ok(TypedDeclaration {
        span: d.span,
        declarators: Listed::new(ds),
    })
}

/// Attributes mark a declaration's variables; without one they stand before nothing.
fn carrier_of(ds: &[InitDeclarator]) -> Carrier
    ensures { result ≡ is.carrier_of (map view_init_declarator ds.now) }
{
    if ds.is_empty() {
        Carrier::Nothing
    } else {
        Carrier::Object
    }
}

fn declared_all(
    alloc: Global,
    names: &mut Names,
    walk: &mut Walk,
    given: &Specified,
    ds: &[InitDeclarator],
) -> Result<Vec<TypedDeclarator>, AllocError>
    ensures { GivesDeclaredAll result (progress_of names.old walk.old) (progress_of names.new walk.new) (is.declared_all given.now (state_of names.old walk.old) (map view_init_declarator ds.now)) }
{
    let mut declarators = Vec::with_capacity(alloc, ds.len())?;
    for d in ds {
        declarators.push(declared_one(alloc, names, walk, given, d)?)?;
    }
    Ok(declarators)
}

/// A declarator: the variable is known in its own initialiser (C99 6.2.1p7).
fn declared_one(
    alloc: Global,
    names: &mut Names,
    walk: &mut Walk,
    given: &Specified,
    d: &InitDeclarator,
) -> Result<TypedDeclarator, AllocError>
    ensures { GivesDeclared result (progress_of names.old walk.old) (progress_of names.new walk.new) (is.declared_one given.now (state_of names.old walk.old) (view_init_declarator d.now)) }
{
    let faults = &mut walk.findings.faults;
    let structs = &walk.findings.structs;
    let var = add_variable(alloc, names, structs, faults, given, &d.declarator)?;
    let ty = local_type(given, &d.declarator);
    let init = initialised(alloc, names, walk, ty, &d.init)?;
    Ok(TypedDeclarator { var, init })
}

/// Declares the variable of a declarator.
fn add_variable(
    alloc: Global,
    names: &mut Names,
    structs: &Structs,
    faults: &mut Vec<TypeFault>,
    given: &Specified,
    d: &Declarator,
) -> Result<VarId, AllocError>
    ensures number { IfOk result (λ v. v ≡ record { 0 = length (env_of names.old).variables }) }
    ensures env { OnOk result (env_of names.new ≡ with_variable (env_of names.old) (is.variable_of given.now d.now)) }
    ensures faults { OnOk result (faults.new.items ≡ faults.old.items ++ is.variable_faults (env_of names.old) structs.now given.now d.now) }
{
    let number = VarId(as_number(names.variables.len())?);
    let at = d.name.span;
    note_object(faults, ObjectKind::Local, given, d.pointer, d.suffix, at)?;
    note_size(faults, structs, local_type(given, d), at)?;
    let variable = variable_of(alloc, given, d)?;
    let is_new = names.add_variable(alloc, variable)?;
    note_if(faults, !is_new, FaultKind::Redeclared, at)?;
    Ok(number)
}

/// The type of a variable.
fn local_type(given: &Specified, d: &Declarator) -> Type
    ensures { result ≡ is.local_type given.now d.now }
{
    object_type(ObjectKind::Local, given, d.pointer, d.suffix)
}

/// The variable that a declarator declares.
fn variable_of(alloc: Global, given: &Specified, d: &Declarator) -> Result<Variable, AllocError>
    ensures { IfOk result (λ v. v ≡ is.variable_of given.now d.now) }
{
    let marks = marks_among(given.attributes.as_slice());
    Ok(Variable {
        name: d.name.bytes.copy(alloc)?,
        span: d.name.span,
        ty: local_type(given, d),
        fixed: is_fixed(ObjectKind::Local, given, d.pointer, d.suffix),
        marked: marks.marked,
        unpriv: marks.unpriv,
    })
}
