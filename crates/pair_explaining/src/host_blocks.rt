// The blocks that explain the faults of a host table.
ghost use Rattle.std.specs.Prelude.{◌≡◌, ◌++◌, IfOk, OnOk, option_map};
ghost use Rattle.std.specs.List.{flat_map};
ghost use Rattle.refusal_lines.specs.HostLines.{host_line};
ghost use Rattle.host_table.specs.ReportLines.{faulty_function};
ghost use Rattle.source_places.specs.LinesSeen.{text_of};
ghost use Rattle.typed_tree.specs.TypedTree.{view_function};
ghost use Rattle.typed_tree.specs.TypedView.{view_typed};
ghost use Rattle.pair_explaining.specs.HostBlocks as is;
ghost use Rattle.pair_explaining.specs.PairSeen.{view_names};

use crate::files::FileNames;
use crate::sentences::push_host_sentence;
use explaining::push_span_excerpt;
use host_table::HostFault;
use pt_base::FnId;
use reach::function_at;
use source_places::{Lines, Place, push_place};
use stages::room_for;
use std::alloc::{AllocError, Global};
use typed_tree::{Typed, TypedFn};

// the number of the function whose entry has a fault
fn faulty_function(fault: HostFault) -> Option<FnId>
    ensures { result ≡ faulty_function fault }
{
    match fault {
        HostFault::NotJson => None,
        HostFault::Shape(function) => function,
        HostFault::Missing(function) => Some(function),
        HostFault::Range(function) => Some(function),
        HostFault::WrongParams(function) => Some(function),
        HostFault::TwoInputs(function) => Some(function),
        HostFault::TooLong => None,
    }
}

// the host whose entry has a fault, None where the whole table has it
fn faulty_host(t: &Typed, fault: HostFault) -> Option<&TypedFn>
    ensures { option_map (λ f. view_function f.now) result ≡ is.faulty_host (view_typed t.now) fault }
{
    match faulty_function(fault) {
        Some(function) => function_at(t, function),
        None => None,
    }
}

// appends what is said of the entry of a host, with the line of its declaration
fn push_entry_text(
    name: &[u8],
    lines: &Lines<'_>,
    fault: HostFault,
    host: &TypedFn,
    text: &mut Vec<u8>,
) -> Result<(), AllocError>
    ensures { OnOk result (text.new.items ≡ text.old.items ++ is.entry_text name.now (text_of lines.now) fault (view_function host.now)) }
{
    lines.push_head(name, host.name.from as usize, text)?;
    push_host_sentence(fault, host.signature.name.as_slice(), text)?;
    text.push(b'\n')?;
    push_span_excerpt(lines, host.name, text)
}

// appends what is said of the whole table in a file of this name
fn push_table_text(name: &[u8], fault: HostFault, text: &mut Vec<u8>) -> Result<(), AllocError>
    ensures { OnOk result (text.new.items ≡ text.old.items ++ is.table_text name.now fault) }
{
    push_place(name, Place { line: 1, column: 1 }, text)?;
    push_host_sentence(fault, b"", text)?;
    text.push(b'\n')?;
    Ok(())
}

// appends what is said of a fault
fn push_host_text(
    names: FileNames<'_>,
    lines: &Lines<'_>,
    t: &Typed,
    fault: HostFault,
    text: &mut Vec<u8>,
) -> Result<(), AllocError>
    ensures { OnOk result (text.new.items ≡ text.old.items ++ is.host_text (view_names names.entry) (text_of lines.now) (view_typed t.now) fault) }
{
    match faulty_host(t, fault) {
        Some(host) => push_entry_text(names.program, lines, fault, host, text),
        None => push_table_text(names.host, fault, text),
    }
}

// appends the line that `local` reports of a fault
fn push_host_line(
    alloc: Global,
    t: &Typed,
    fault: HostFault,
    text: &mut Vec<u8>,
) -> Result<(), AllocError>
    ensures { OnOk result (text.new.items ≡ text.old.items ++ host_line (view_typed t.now) fault) }
{
    let line = fault.report_line(alloc, t)?;
    text.extend_from_slice(&line)?;
    text.push(b'\n')?;
    Ok(())
}

// appends the block of a fault
fn push_host_block(
    alloc: Global,
    names: FileNames<'_>,
    lines: &Lines<'_>,
    t: &Typed,
    fault: HostFault,
    text: &mut Vec<u8>,
) -> Result<(), AllocError>
    ensures { OnOk result (text.new.items ≡ text.old.items ++ is.host_block (view_names names.entry) (text_of lines.now) (view_typed t.now) fault) }
{
    push_host_text(names, lines, t, fault, text)?;
    push_host_line(alloc, t, fault, text)?;
    text.push(b'\n')?;
    Ok(())
}

// the blocks of faults
fn blocks_of(
    alloc: Global,
    names: FileNames<'_>,
    lines: &Lines<'_>,
    t: &Typed,
    faults: &[HostFault],
) -> Result<Vec<u8>, AllocError>
    ensures { IfOk result (λ text. text.items ≡ flat_map (is.host_block (view_names names.entry) (text_of lines.now) (view_typed t.now)) faults.now) }
{
    let mut text = Vec::new(alloc);
    for fault in faults {
        push_host_block(alloc, names, lines, t, *fault, &mut text)?;
        room_for(text.as_slice())?;
    }
    Ok(text)
}

/// The blocks that explain the faults of a host table, of the program of this text and typed tree. Time is
/// linear in the text and in what is written, but for finding the lines of faults.
pub(crate) fn host_blocks(
    alloc: Global,
    names: FileNames<'_>,
    program: &[u8],
    t: &Typed,
    faults: &[HostFault],
) -> Result<Vec<u8>, AllocError>
    ensures { IfOk result (λ text. text.items ≡ flat_map (is.host_block (view_names names.entry) program.now (view_typed t.now)) faults.now) }
{
    let lines = Lines::new(alloc, program)?;
    let text = blocks_of(alloc, names, &lines, t, faults)?;
    Ok(text)
}
