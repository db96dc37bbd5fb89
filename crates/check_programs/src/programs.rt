// Whole programs (C99 6.9).
ghost use Rattle.std.specs.Prelude.{◌≡◌, ◌++◌, [], map, IfOk, OnOk};
ghost use Rattle.pt_tree.specs.ProgramTree.{view_item};
ghost use Rattle.check_programs.specs.Answers.{AnswersWith, IsAnswer, view_elaborated};
ghost use Rattle.check_programs.specs.Gives.{GivesChecked};
ghost use Rattle.check_programs.specs.MarkTables.{marks_in};
ghost use Rattle.check_programs.specs.Progress as start;
ghost use Rattle.check_programs.specs.Programs as is;
ghost use Rattle.check_programs.specs.ProgressOf.{progress_of};

use crate::answer::{Elaborated, TypeError};
use crate::definitions::check_function;
use crate::function_marks::FunctionMarks;
use crate::globals::check_declaration;
use crate::mark_table::{MarkTable, mark_table, undeclared};
use crate::progress::Progress;
use crate::structs::struct_infos;
use check_declarations::{FaultKind, Findings, TypeFault, arrange, note_if};
use check_expressions::Names;
use check_statements::Walk;
use pt_base::{Listed, Span};
use pt_tree::{Item, Program};
use std::alloc::{AllocError, Global};

/// Adds the fault of a program that can't begin.
fn note_main(faults: &mut Vec<TypeFault>, has_main: bool) -> Result<(), AllocError>
    ensures { OnOk result (faults.new.items ≡ faults.old.items ++ is.main_faults has_main) }
{
    let nowhere = Span { from: 0, to: 0 };
    note_if(faults, !has_main, FaultKind::NoMain, nowhere)
}

/// Judges an item, by what all declarations say of a function, if it is one.
fn check_item(
    alloc: Global,
    marks: &FunctionMarks,
    progress: &mut Progress,
    item: &Item,
) -> Result<(), AllocError>
    ensures { GivesChecked result progress.old progress.new (is.checked_item marks.now (progress_of progress.old) (view_item item.now)) }
{
    match item {
        Item::Declare(declaration) => check_declaration(alloc, progress, declaration),
        Item::Function(function) => check_function(alloc, marks, progress, function),
    }
}

/// The name of a function; none of a declaration.
fn function_name(item: &Item) -> &[u8]
    ensures { result.now ≡ is.function_name (view_item item.now) }
{
    match item {
        Item::Declare(_) => &[],
        Item::Function(function) => function.declarator.name.bytes.as_slice(),
    }
}

/// Judges an item, by what the table says.
fn check_known(
    alloc: Global,
    table: &MarkTable,
    progress: &mut Progress,
    item: &Item,
) -> Result<(), AllocError>
    ensures { GivesChecked result progress.old progress.new (is.checked_item (marks_in table.now.entries (is.function_name (view_item item.now))) (progress_of progress.old) (view_item item.now)) }
{
    match table.get(function_name(item)) {
        Some(marks) => check_item(alloc, marks, progress, item),
        None => check_item(alloc, &undeclared(alloc), progress, item),
    }
}

/// Judges items in order, by what the table says.
fn check_items(
    alloc: Global,
    table: &MarkTable,
    progress: &mut Progress,
    items: &[Item],
) -> Result<(), AllocError>
    ensures { GivesChecked result progress.old progress.new (is.checked_items (marks_in table.now.entries) (progress_of progress.old) (map view_item items.now)) }
{
    for item in items {
        check_known(alloc, table, progress, item)?;
    }
    Ok(())
}

/// Before the first item.
fn begin(alloc: Global) -> Progress
    ensures progress { progress_of result ≡ start.at_start }
    ensures faults { result.walk.findings.faults.items ≡ [] }
{
    Progress {
        names: Names::new(alloc),
        walk: Walk {
            findings: Findings::none(alloc),
            exprs: Vec::new(alloc),
        },
        functions: Vec::new(alloc),
        globals: Vec::new(alloc),
        cells: 0,
        has_main: false,
    }
}

/// Judges the items of a program.
fn check_program(alloc: Global, items: &[Item]) -> Result<Progress, AllocError>
    ensures tree { IfOk result (λ p. is.tree_of (progress_of p) ≡ (is.checked_program (map view_item items.now)).tree) }
    ensures faults { IfOk result (λ p. p.walk.findings.faults.items ≡ (is.checked_program (map view_item items.now)).faults) }
{
    let table = mark_table(alloc, items)?;
    let mut progress = begin(alloc);
    check_items(alloc, &table, &mut progress, items)?;
    note_main(&mut progress.walk.findings.faults, progress.has_main)?;
    Ok(progress)
}

/// The parts of the typed tree, and the faults.
fn parts(alloc: Global, progress: Progress) -> Result<(Elaborated, Vec<TypeFault>), AllocError>
    ensures { IfOk result (λ p. (view_elaborated p.0 ≡ is.tree_of (progress_of progress)) × (p.1.items ≡ progress.walk.findings.faults.items)) }
{
    let Progress {
        names: _,
        walk,
        functions,
        globals,
        cells: _,
        has_main: _,
    } = progress;
    let Walk { findings, exprs } = walk;
    let Findings { structs, faults } = findings;
    let structs = struct_infos(alloc, &structs)?;
    let parts = Elaborated {
        structs: Listed::new(structs),
        globals: Listed::new(globals),
        functions,
        exprs,
    };
    Ok((parts, faults))
}

/// The answer with these parts and these faults.
fn answer(parts: Elaborated, mut faults: Vec<TypeFault>) -> Result<Elaborated, TypeError>
    ensures { AnswersWith result parts faults.items }
{
    if faults.is_empty() {
        return Ok(parts);
    }
    arrange(&mut faults);
    Err(TypeError::Faults(faults))
}

/// The typed tree of a program, or all its type faults.
pub fn elaborate(alloc: Global, program: &Program) -> Result<Elaborated, TypeError>
    ensures { IsAnswer result (map view_item program.now.items.items) }
{
    let progress = check_program(alloc, &program.items)?;
    let (parts, faults) = parts(alloc, progress)?;
    answer(parts, faults)
}
