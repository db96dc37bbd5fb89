// The lines of entries: what crosses at their parameters, and what they give.
ghost use Rattle.std.specs.Prelude.{◌≡◌, ◌++◌, not, OnOk};
ghost use Rattle.marshalling.specs.Crossings as crossing;
ghost use Rattle.typed_tree.specs.TypedView.{view_typed};
ghost use Rattle.outlining.specs.EntryTexts as is;
ghost use Rattle.outlining.specs.OutlineTexts as whole;
ghost use Rattle.outlining.specs.StructCells.{is_marked_in};

use crate::struct_cells::{Cells, is_marked_in};
use pt_base::FnId;
use pt_core::Entry;
use pt_tree::{Param, ParamKind, Signature};
use stages::room_for;
use std::alloc::AllocError;
use typed_tree::Typed;

// which cells that a pointer reaches may go as handles
fn sent_words(marked: bool, fields: bool) -> &'static str
    ensures { result.now ≡ is.sent_words marked fields }
{
    if marked {
        " with handles"
    } else if fields {
        " with handles in marked fields"
    } else {
        ""
    }
}

// which of them come back as handles
fn back_words(secret: bool, fields: bool) -> &'static str
    ensures { result.now ≡ is.back_words secret fields }
{
    if secret {
        " and back as handles"
    } else if fields {
        " and back as numbers with handles in marked fields"
    } else {
        " and back as numbers"
    }
}

// the same, where anything comes back
fn back_text(fixed: bool, secret: bool, fields: bool) -> &'static str
    ensures { result.now ≡ is.back_text fixed secret fields }
{
    if fixed {
        ""
    } else {
        back_words(secret, fields)
    }
}

// what crosses at an integer parameter
fn number_words(marked: bool) -> &'static str
    ensures { result.now ≡ is.number_words marked }
{
    if marked { "number or handle" } else { "number" }
}

// whether all that comes back through a parameter comes back as handles
fn is_secret(param: Param) -> bool
    ensures { result ≡ crossing.is_secret param }
{
    param.marked && !param.declassify
}

// appends what crosses at a pointer, to elements with a marked field or without one
fn push_block(param: Param, fixed: bool, fields: bool, text: &mut Vec<u8>) -> Result<(), AllocError>
    ensures { OnOk result (text.new.items ≡ text.old.items ++ is.block_text param fixed fields) }
{
    text.extend_from_slice(b"block")?;
    text.extend_from_slice(sent_words(param.marked, fields).as_bytes())?;
    text.extend_from_slice(back_text(fixed, is_secret(param), fields).as_bytes())?;
    Ok(())
}

// appends what crosses at a parameter
fn push_param(known: &[Cells], param: Param, text: &mut Vec<u8>) -> Result<(), AllocError>
    ensures { OnOk result (text.new.items ≡ text.old.items ++ is.param_text (is_marked_in known.now) param) }
{
    match param.kind {
        ParamKind::Int(_) => text.extend_from_slice(number_words(param.marked).as_bytes()),
        ParamKind::Ptr { elem, fixed } => {
            let fields = is_marked_in(known, elem);
            push_block(param, fixed, fields, text)
        }
    }
}

// appends what crosses at a parameter, behind a comma
fn push_next(known: &[Cells], param: Param, text: &mut Vec<u8>) -> Result<(), AllocError>
    ensures { OnOk result (text.new.items ≡ text.old.items ++ is.next_param (is_marked_in known.now) param) }
{
    text.extend_from_slice(b", ")?;
    push_param(known, param, text)
}

// appends what crosses at parameters, each behind a comma
fn push_more(known: &[Cells], params: &[Param], text: &mut Vec<u8>) -> Result<(), AllocError>
    ensures { OnOk result (text.new.items ≡ text.old.items ++ is.more_params (is_marked_in known.now) params.now) }
{
    for param in params {
        push_next(known, *param, text)?;
    }
    Ok(())
}

// appends what crosses at parameters
fn push_params(known: &[Cells], params: &[Param], text: &mut Vec<u8>) -> Result<(), AllocError>
    ensures { OnOk result (text.new.items ≡ text.old.items ++ is.params_text (is_marked_in known.now) params.now) }
{
    match params {
        [] => Ok(()),
        [first, others @ ..] => {
            push_param(known, *first, text)?;
            push_more(known, others, text)
        }
    }
}

// how a result comes back, where there is one
fn given_words(declassify: bool) -> &'static str
    ensures { result.now ≡ is.result_words (crossing.sealed_if (not declassify)) }
{
    if declassify {
        " gives a number"
    } else {
        " gives a handle"
    }
}

// what a function or host gives
fn result_words(signature: &Signature) -> &'static str
    ensures { result.now ≡ is.result_text signature.now signature.now.result }
{
    match signature.result {
        None => " gives nothing",
        Some(_) => given_words(signature.declassify),
    }
}

// appends the name of a function or host, with what crosses at its parameters
fn push_called(known: &[Cells], signature: &Signature, text: &mut Vec<u8>) -> Result<(), AllocError>
    ensures { OnOk result (text.new.items ≡ text.old.items ++ is.called_text (is_marked_in known.now) signature.now) }
{
    text.extend_from_slice(signature.name.as_slice())?;
    text.push(b'(')?;
    push_params(known, signature.params.as_slice(), text)?;
    text.push(b')')?;
    Ok(())
}

// appends the line of a function or host
fn push_signature(
    known: &[Cells],
    signature: &Signature,
    text: &mut Vec<u8>,
) -> Result<(), AllocError>
    ensures { OnOk result (text.new.items ≡ text.old.items ++ is.entry_line (is_marked_in known.now) signature.now) }
{
    text.extend_from_slice(b"  entry ")?;
    push_called(known, signature, text)?;
    text.extend_from_slice(result_words(signature).as_bytes())?;
    text.push(b'\n')?;
    Ok(())
}

// appends the line of the function or host of this number
fn push_entry(
    t: &Typed,
    known: &[Cells],
    function: FnId,
    text: &mut Vec<u8>,
) -> Result<(), AllocError>
    ensures { OnOk result (text.new.items ≡ text.old.items ++ whole.entry_text (is_marked_in known.now) (view_typed t.now) function) }
{
    match t.signature(function) {
        Some(signature) => push_signature(known, signature, text),
        None => Ok(()),
    }
}

/// Appends the lines of entries, by the cells of structs.
pub(crate) fn push_entries(
    t: &Typed,
    known: &[Cells],
    entries: &[Entry],
    text: &mut Vec<u8>,
) -> Result<(), AllocError>
    ensures { OnOk result (text.new.items ≡ text.old.items ++ whole.entries_text (is_marked_in known.now) (view_typed t.now) entries.now) }
{
    for entry in entries {
        push_entry(t, known, entry.function, text)?;
        room_for(text.as_slice())?;
    }
    Ok(())
}
