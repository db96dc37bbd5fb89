// The block that explains the fault of a policy.
ghost use Rattle.std.specs.Prelude.{◌≡◌, ◌++◌, IfOk, OnOk};
ghost use Rattle.refusal_lines.specs.Lines.{policy_line};
ghost use Rattle.source_places.specs.LinesSeen.{text_of};
ghost use Rattle.pair_explaining.specs.PolicyBlocks as is;

use crate::sentences::policy_sentence;
use policy::PolicyFault;
use source_places::{Lines, Place, push_place};
use std::alloc::{AllocError, Global};

// where a fault at a line is told
fn policy_place(line: u32) -> Place
    ensures { result ≡ is.policy_place line }
{
    if line == 0 {
        Place { line: 1, column: 1 }
    } else {
        Place {
            line: line as usize,
            column: 1,
        }
    }
}

// appends the line that has a fault, but not of a text that is too long
fn push_policy_excerpt(lines: &Lines<'_>, line: u32, text: &mut Vec<u8>) -> Result<(), AllocError>
    ensures { OnOk result (text.new.items ≡ text.old.items ++ is.policy_excerpt (text_of lines.now) line) }
{
    if line == 0 {
        return Ok(());
    }
    lines.push_line_excerpt(line as usize, text)
}

// appends what is said of a fault, with its line
fn push_policy_text(
    name: &[u8],
    lines: &Lines<'_>,
    fault: PolicyFault,
    text: &mut Vec<u8>,
) -> Result<(), AllocError>
    ensures { OnOk result (text.new.items ≡ text.old.items ++ is.policy_text name.now (text_of lines.now) fault) }
{
    push_place(name, policy_place(fault.line), text)?;
    text.extend_from_slice(policy_sentence(fault).as_bytes())?;
    text.push(b'\n')?;
    push_policy_excerpt(lines, fault.line, text)
}

// appends the line that `local` reports of a fault
fn push_policy_line(alloc: Global, fault: PolicyFault, text: &mut Vec<u8>) -> Result<(), AllocError>
    ensures { OnOk result (text.new.items ≡ text.old.items ++ policy_line fault) }
{
    let line = fault.report_line(alloc)?;
    text.extend_from_slice(&line)?;
    text.push(b'\n')?;
    Ok(())
}

// the block of a fault of the policy of these lines
fn block_in(
    alloc: Global,
    name: &[u8],
    lines: &Lines<'_>,
    fault: PolicyFault,
) -> Result<Vec<u8>, AllocError>
    ensures { IfOk result (λ text. text.items ≡ is.policy_block name.now (text_of lines.now) fault) }
{
    let mut text = Vec::new(alloc);
    push_policy_text(name, lines, fault, &mut text)?;
    push_policy_line(alloc, fault, &mut text)?;
    text.push(b'\n')?;
    Ok(text)
}

/// The block that explains the fault of a policy of this text, in a file of this name. Time is linear in the
/// text and in what is written.
pub(crate) fn policy_block(
    alloc: Global,
    name: &[u8],
    policy: &[u8],
    fault: PolicyFault,
) -> Result<Vec<u8>, AllocError>
    ensures { IfOk result (λ text. text.items ≡ is.policy_block name.now policy.now fault) }
{
    let lines = Lines::new(alloc, policy)?;
    let text = block_in(alloc, name, &lines, fault)?;
    Ok(text)
}
