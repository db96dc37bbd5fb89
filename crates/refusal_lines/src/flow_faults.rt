// The lines of the faults of flows.
ghost use Rattle.std.specs.Prelude.{◌≡◌, ◌++◌, IfOk, OnOk, codes};
ghost use Rattle.front_end.specs.FaultLines.{place_text};
ghost use Rattle.refusal_lines.specs.FlowLines as is;

use flow_rules::{FlowFault, Rule};
use front_end::{push_numbered, push_span};
use pt_base::Span;
use stages::room_for;
use std::alloc::{AllocError, Global};

/// Whether the faults of a rule show a way.
pub fn shows_way(rule: Rule) -> bool
    ensures { result ≡ is.shows_way rule }
{
    match rule {
        Rule::OperationOnPriv => true,
        Rule::PrivToHost => true,
        Rule::PrivIntoUnpriv => true,
        Rule::SharedGlobal => false,
        Rule::UnmarkedOut => false,
        Rule::HostInMonitor => false,
        Rule::PrivToPlainParam => true,
        Rule::PrivStatus => true,
        Rule::PrivMain => false,
    }
}

// appends a stretch of the text behind a space
fn push_place(span: Span, line: &mut Vec<u8>) -> Result<(), AllocError>
    ensures { OnOk result (line.new.items ≡ line.old.items ++ (codes " " ++ place_text span)) }
{
    line.push(b' ')?;
    push_span(span, line)
}

// appends stretches of the text, each behind a space
fn push_places(spans: &[Span], line: &mut Vec<u8>) -> Result<(), AllocError>
    ensures { OnOk result (line.new.items ≡ line.old.items ++ is.places_text spans.now) }
{
    for span in spans {
        push_place(*span, line)?;
    }
    Ok(())
}

// appends the way that a fault of this rule shows
fn push_way(rule: Rule, path: &[Span], line: &mut Vec<u8>) -> Result<(), AllocError>
    ensures { OnOk result (line.new.items ≡ line.old.items ++ is.way_text rule path.now) }
{
    if !shows_way(rule) {
        return Ok(());
    }
    line.extend_from_slice(b" path")?;
    push_places(path, line)
}

/// Appends the line of a fault. Where memory is wanting, a first part of it may stand there.
pub fn push_fault(fault: &FlowFault, lines: &mut Vec<u8>) -> Result<(), AllocError>
    ensures { OnOk result (lines.new.items ≡ lines.old.items ++ is.flow_line fault.now) }
{
    lines.extend_from_slice(b"flow ")?;
    push_numbered(fault.rule.number(), fault.rule.name(), lines)?;
    lines.push(b' ')?;
    push_span(fault.span, lines)?;
    push_way(fault.rule, fault.path.as_slice(), lines)?;
    lines.push(b'\n')?;
    Ok(())
}

/// The lines of the faults of a program's flows. Time is linear in what is written.
///
/// # Errors
///
/// Want of memory; more than [`MOST_BYTES`](stages::MOST_BYTES) of lines are that too.
pub fn flow_lines(alloc: Global, faults: &[FlowFault]) -> Result<Vec<u8>, AllocError>
    ensures { IfOk result (λ lines. lines.items ≡ is.flow_lines faults.now) }
{
    let mut lines = Vec::new(alloc);
    for fault in faults {
        push_fault(fault, &mut lines)?;
        room_for(lines.as_slice())?;
    }
    Ok(lines)
}
