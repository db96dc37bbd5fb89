// The lines of an audit.
ghost use Rattle.std.specs.Prelude.{◌≡◌, ◌++◌, IfOk, OnOk, map};
ghost use Rattle.std.specs.List.{flat_map};
ghost use Rattle.typed_tree.specs.TypedView.{view_typed};
ghost use Rattle.monitor_labels.specs.Verdicts.{view_verdict};
ghost use Rattle.auditing.specs.Audits as is;

use monitor_labels::Verdict;
use pt_base::FnId;
use std::alloc::{AllocError, Global};
use typed_tree::Typed;

// what a line begins with
fn verdict_words(dependent: bool) -> &'static str
    ensures { result.now ≡ is.verdict_words dependent }
{
    if dependent {
        "dependent "
    } else {
        "independent "
    }
}

// appends the name of a function
fn push_name(t: &Typed, function: FnId, text: &mut Vec<u8>) -> Result<(), AllocError>
    ensures { OnOk result (text.new.items ≡ text.old.items ++ is.name_of (view_typed t.now) function.0) }
{
    if let Some(signature) = t.signature(function) {
        text.extend_from_slice(signature.name.as_slice())?;
    }
    Ok(())
}

// appends the line of a verdict
fn push_line(t: &Typed, verdict: Verdict, text: &mut Vec<u8>) -> Result<(), AllocError>
    ensures { OnOk result (text.new.items ≡ text.old.items ++ is.verdict_line (view_typed t.now) (view_verdict verdict)) }
{
    text.extend_from_slice(verdict_words(verdict.dependent).as_bytes())?;
    push_name(t, verdict.function, text)?;
    text.push(b'\n')?;
    Ok(())
}

/// The lines of these verdicts.
pub(crate) fn audit_lines(
    alloc: Global,
    t: &Typed,
    verdicts: &[Verdict],
) -> Result<Vec<u8>, AllocError>
    ensures { IfOk result (λ text. text.items ≡ flat_map (is.verdict_line (view_typed t.now)) (map view_verdict verdicts.now)) }
{
    let mut text = Vec::new(alloc);
    for verdict in verdicts {
        push_line(t, *verdict, &mut text)?;
    }
    Ok(text)
}
