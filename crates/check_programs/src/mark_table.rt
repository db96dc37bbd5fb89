// What the whole program says of each of its functions.
ghost use Rattle.std.specs.Prelude.{◌≡◌, map, IfOk, OnOk};
ghost use Rattle.pt_tree.specs.ProgramTree as parsed;
ghost use Rattle.check_programs.specs.MarkTables.{marks_in};
ghost use Rattle.check_programs.specs.MarkTables as tables;
ghost use Rattle.check_programs.specs.Unions as is;

use crate::function_marks::{FunctionMarks, both, own_marks};
use crate::functions::is_definition;
use check_declarations::Marks;
use indexmap::IndexMap;
use pt_base::Listed;
use pt_tree::{Function, Item, ParamDecl};
use std::alloc::{AllocError, Global};

/// What is known of functions, by name.
pub(crate) type MarkTable = IndexMap<Vec<u8>, FunctionMarks>;

/// What is known of a function before its first declaration.
pub(crate) fn undeclared(alloc: Global) -> FunctionMarks
    ensures { result ≡ is.undeclared }
{
    FunctionMarks {
        privileged: false,
        declassify: false,
        defined: false,
        params: Listed::new(Vec::new(alloc)),
    }
}

/// Adds marks at a position, which is at most the end.
fn add_at(marks: &mut Vec<Marks>, position: usize, own: Marks) -> Result<(), AllocError>
    ensures { OnOk result (marks.new.items ≡ tables.with_marks_at marks.old.items position own) }
{
    if position < marks.len() {
        marks[position] = both(marks[position], own);
    } else {
        marks.push(own)?;
    }
    Ok(())
}

/// The marks of parameters with those of a further declaration, position by position.
fn union(alloc: Global, known: Vec<Marks>, params: &[ParamDecl]) -> Result<Vec<Marks>, AllocError>
    ensures { IfOk result (λ ms. ms.items ≡ is.union known.items (is.params_marks (map parsed.view_param params.now))) }
{
    let mut marks = known;
    for (position, param) in params.iter().enumerate() {
        let own = own_marks(alloc, &param.specs)?;
        add_at(&mut marks, position, own)?;
    }
    Ok(marks)
}

/// What is known of a function with one more declaration.
fn with_declaration(
    alloc: Global,
    known: FunctionMarks,
    function: &Function,
) -> Result<FunctionMarks, AllocError>
    ensures { IfOk result (λ m. m ≡ is.with_declaration known (parsed.view_function function.now)) }
{
    let own = own_marks(alloc, &function.specs)?;
    let params = union(alloc, known.params.into_vec(), &function.params)?;
    Ok(FunctionMarks {
        privileged: known.privileged || own.marked,
        declassify: known.declassify || own.declassify,
        defined: known.defined || is_definition(function),
        params: Listed::new(params),
    })
}

/// Takes out what is known of the function of this name.
fn take(alloc: Global, table: &mut MarkTable, name: &[u8]) -> FunctionMarks
    ensures marks { result ≡ marks_in table.old.entries name.now }
    ensures others { tables.KeepsOthers name.now (marks_in table.old.entries) (marks_in table.new.entries) }
{
    match table.swap_remove(name) {
        Some(marks) => marks,
        None => undeclared(alloc),
    }
}

/// Says what is known of the function of this name.
fn put(
    alloc: Global,
    table: &mut MarkTable,
    name: &[u8],
    marks: FunctionMarks,
) -> Result<(), AllocError>
    ensures { OnOk result (marks_in table.new.entries ≡ tables.with_marks (marks_in table.old.entries) name.now marks) }
{
    table.insert(Vec::from_slice(alloc, name)?, marks)?;
    Ok(())
}

/// Adds a declaration of a function.
#[tactic(auto, using(crate::proofs::MarkTableLemmas::declared_once))]
fn add_function(alloc: Global, table: &mut MarkTable, function: &Function) -> Result<(), AllocError>
    ensures { OnOk result (marks_in table.new.entries ≡ tables.with_function (marks_in table.old.entries) (parsed.view_function function.now)) }
{
    let name = function.declarator.name.bytes.as_slice();
    let known = take(alloc, table, name);
    let marks = with_declaration(alloc, known, function)?;
    put(alloc, table, name, marks)
}

/// Adds an item, if it is a declaration of a function.
fn add_item(alloc: Global, table: &mut MarkTable, item: &Item) -> Result<(), AllocError>
    ensures { OnOk result (marks_in table.new.entries ≡ tables.with_item (marks_in table.old.entries) (parsed.view_item item.now)) }
{
    match item {
        Item::Declare(_) => Ok(()),
        Item::Function(function) => add_function(alloc, table, function),
    }
}

/// What these items say together of each function.
pub(crate) fn mark_table(alloc: Global, items: &[Item]) -> Result<MarkTable, AllocError>
    ensures { IfOk result (λ t. marks_in t.entries ≡ is.function_marks (map parsed.view_item items.now)) }
{
    let mut table = IndexMap::new(alloc);
    for item in items {
        add_item(alloc, &mut table, item)?;
    }
    Ok(table)
}
