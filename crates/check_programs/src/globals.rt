// Globals (C99 6.9.2).
ghost use Rattle.std.specs.Prelude.{◌≡◌, ◌++◌, map, IfOk, OnOk};
ghost use Rattle.pt_tree.specs.StatementTree.{view_init_declarator, view_declaration};
ghost use Rattle.check_programs.specs.Gives.{GivesChecked};
ghost use Rattle.check_programs.specs.Globals as is;
ghost use Rattle.check_programs.specs.ProgressOf.{progress_of};

use crate::entries::object_type_of;
use crate::progress::Progress;
use check_declarations::{
    Carrier, FaultKind, ObjectKind, Specified, Structs, TypeFault, cells_of, is_fixed,
    judge_specifiers, marks_among, note_attributes, note_if, note_object, note_size, object_type,
};
use check_expressions::Object;
use check_statements::global_values;
use pt_base::Listed;
use pt_tree::{Declaration, Declarator, InitDeclarator};
use std::alloc::{AllocError, Global};
use type_rules::Type;
use typed_tree::{TypedGlobal, Var};

/// The most cells that all globals may have together.
const GLOBALS_LIMIT: u32 = 1_048_576;

/// The cells of all globals with a further one, counted up to 1,048,577.
fn cells_with(total: u32, count: u32) -> u32
    ensures { result ≡ is.cells_with total count }
{
    (u64::from(total) + u64::from(count)).min(u64::from(GLOBALS_LIMIT) + 1) as u32
}

/// Whether it is with this global, and not before, that the sum goes over the limit.
fn brings_over(total: u32, count: u32) -> bool
    ensures { result ≡ is.brings_over total count }
{
    total <= GLOBALS_LIMIT && GLOBALS_LIMIT < cells_with(total, count)
}

/// So many cells: the values, and 0 behind them.
fn padded(values: Vec<i128>, count: u32) -> Result<Vec<i128>, AllocError>
    ensures { IfOk result (λ cells. cells.items ≡ is.padded count values.items) }
{
    let mut cells = values;
    cells.resize(count as usize, 0)?;
    Ok(cells)
}

/// What a global starts with; nothing past the limit.
fn start_cells(
    alloc: Global,
    total: u32,
    count: u32,
    values: Vec<i128>,
) -> Result<Vec<i128>, AllocError>
    ensures { IfOk result (λ cells. cells.items ≡ is.start_cells total count values.items) }
{
    if cells_with(total, count) <= GLOBALS_LIMIT {
        padded(values, count)
    } else {
        Ok(Vec::new(alloc))
    }
}

fn global_type(given: &Specified, declarator: &Declarator) -> Type
    ensures { result ≡ is.global_type given.now declarator.now }
{
    object_type(
        ObjectKind::Global,
        given,
        declarator.pointer,
        declarator.suffix,
    )
}

fn object_of(given: &Specified, declarator: &Declarator) -> Object
    ensures { result ≡ is.object_of given.now declarator.now }
{
    Object {
        ty: global_type(given, declarator),
        fixed: is_fixed(
            ObjectKind::Global,
            given,
            declarator.pointer,
            declarator.suffix,
        ),
    }
}

fn var_of(alloc: Global, given: &Specified, declarator: &Declarator) -> Result<Var, AllocError>
    ensures { IfOk result (λ v. v ≡ is.var_of given.now declarator.now) }
{
    let marks = marks_among(given.attributes.as_slice());
    Ok(Var {
        name: declarator.name.bytes.copy(alloc)?,
        span: declarator.name.span,
        ty: object_type_of(global_type(given, declarator)),
        marked: marks.marked,
        unpriv: marks.unpriv,
        holds: None,
    })
}

/// A global of these cells in the typed tree.
fn typed_global(
    alloc: Global,
    given: &Specified,
    declarator: &Declarator,
    cells: Vec<i128>,
) -> Result<TypedGlobal, AllocError>
    ensures { IfOk result (λ g. g ≡ is.typed_global given.now declarator.now cells.items) }
{
    Ok(TypedGlobal {
        var: var_of(alloc, given, declarator)?,
        fixed: is_fixed(
            ObjectKind::Global,
            given,
            declarator.pointer,
            declarator.suffix,
        ),
        declassify: marks_among(given.attributes.as_slice()).declassify,
        cells: Listed::new(cells),
    })
}

/// Adds the faults of a global's declaration, without those of its initialiser.
fn note_global(
    faults: &mut Vec<TypeFault>,
    structs: &Structs,
    given: &Specified,
    declarator: &Declarator,
    repeated: bool,
    over: bool,
) -> Result<(), AllocError>
    ensures { OnOk result (faults.new.items ≡ faults.old.items ++ is.global_faults structs.now given.now declarator.now repeated over) }
{
    let at = declarator.name.span;
    let kind = ObjectKind::Global;
    note_object(
        faults,
        kind,
        given,
        declarator.pointer,
        declarator.suffix,
        at,
    )?;
    note_size(faults, structs, global_type(given, declarator), at)?;
    note_if(faults, repeated, FaultKind::Redeclared, at)?;
    note_if(faults, over, FaultKind::TooLarge, at)
}

/// Declares a global.
fn declare_global(
    alloc: Global,
    progress: &mut Progress,
    given: &Specified,
    global: &InitDeclarator,
) -> Result<(), AllocError>
    ensures { GivesChecked result progress.old progress.new (is.declared_one given.now (progress_of progress.old) (view_init_declarator global.now)) }
{
    let declarator = &global.declarator;
    let object = object_of(given, declarator);
    let findings = &mut progress.walk.findings;
    let count = cells_of(&findings.structs, object.ty);
    let total = progress.cells;
    let name = declarator.name.bytes.as_slice();
    let is_new = progress.names.add_global(alloc, name, object)?;
    let over = brings_over(total, count);
    let faults = &mut findings.faults;
    note_global(faults, &findings.structs, given, declarator, !is_new, over)?;
    let names = &progress.names;
    let values = global_values(alloc, names, findings, object.ty, &global.init)?;
    let cells = start_cells(alloc, total, count, values)?;
    let global = typed_global(alloc, given, declarator, cells)?;
    progress.globals.push(global)?;
    progress.cells = cells_with(total, count);
    Ok(())
}

fn declare_globals(
    alloc: Global,
    progress: &mut Progress,
    given: &Specified,
    globals: &[InitDeclarator],
) -> Result<(), AllocError>
    ensures { GivesChecked result progress.old progress.new (is.declared_all given.now (progress_of progress.old) (map view_init_declarator globals.now)) }
{
    for global in globals {
        declare_global(alloc, progress, given, global)?;
    }
    Ok(())
}

/// What the attributes of a declaration mark.
fn carrier(globals: &[InitDeclarator]) -> Carrier
    ensures { result ≡ is.global_carrier (map view_init_declarator globals.now) }
{
    match globals {
        [] => Carrier::Nothing,
        [_, ..] => Carrier::Global,
    }
}

/// Judges a declaration at file scope.
pub(crate) fn check_declaration(
    alloc: Global,
    progress: &mut Progress,
    declaration: &Declaration,
) -> Result<(), AllocError>
    ensures { GivesChecked result progress.old progress.new (is.checked_declaration (progress_of progress.old) (view_declaration declaration.now)) }
{
    let globals = declaration.declarators.as_slice();
    let findings = &mut progress.walk.findings;
    let given = judge_specifiers(alloc, findings, true, &declaration.specs)?;
    let attributes = given.attributes.as_slice();
    note_attributes(&mut findings.faults, carrier(globals), attributes)?;
    declare_globals(alloc, progress, &given, globals)?;
    Ok(())
}
