// The host table to start from.
ghost use Rattle.std.specs.Prelude.{◌≡◌, ◌++◌, false, None, IfOk, OnOk, option_map};
ghost use Rattle.serde_json.specs.Written.{comma_if};
ghost use Rattle.typed_tree.specs.TypedTree.{signatures_of};
ghost use Rattle.typed_tree.specs.TypedView.{view_typed};
ghost use Rattle.starting_texts.specs.Hosts.{hosts_text};
ghost use Rattle.starting_texts.specs.Tables.{entry_text, key_text, member_text, table_text, is_unfit, first_unfit, IsStartingTable};

use crate::texts::StartingTable;
use host_models::is_mixed;
use host_table::TABLE_LIMIT;
use pt_base::FnId;
use pt_tree::Signature;
use std::alloc::{AllocError, Global};
use typed_tree::Typed;

/// A host table to start from: each call of a host with a result gives 0, and each other one writes a line.
/// Time and memory are linear in the names of the hosts.
pub fn starting_table(alloc: Global, t: &Typed) -> Result<StartingTable, AllocError>
    ensures { IfOk result (IsStartingTable (view_typed t.now)) }
{
    match first_unfit(t) {
        Some(f) => Ok(StartingTable::NoneFits(f)),
        None => fitting_table(alloc, t),
    }
}

// The same, where an entry fits each host.
fn fitting_table(alloc: Global, t: &Typed) -> Result<StartingTable, AllocError>
    requires { first_unfit (view_typed t.now) ≡ None }
    ensures { IfOk result (IsStartingTable (view_typed t.now)) }
{
    let text = table_text(alloc, t)?;
    if text.len() > TABLE_LIMIT {
        return Ok(StartingTable::TooLong);
    }
    Ok(StartingTable::Text(text))
}

// Whether no entry fits the host.
fn is_unfit(s: &Signature) -> bool
    ensures { result ≡ is_unfit s.now }
{
    s.host && is_mixed(s) && s.result.is_none()
}

// The first host that no entry fits.
fn first_unfit(t: &Typed) -> Option<FnId>
    ensures { option_map (λ f. f.0) result ≡ first_unfit (view_typed t.now) }
{
    let mut number = 0;
    for function in &t.functions {
        if is_unfit(&function.signature) {
            return Some(FnId(number));
        }
        number += 1;
    }
    None
}

// The table's text.
fn table_text(alloc: Global, t: &Typed) -> Result<Vec<u8>, AllocError>
    ensures { IfOk result (λ text. text.items ≡ table_text (view_typed t.now)) }
{
    let mut text = Vec::from_slice(alloc, b"{")?;
    push_hosts(t, &mut text)?;
    text.push(b'}')?;
    Ok(text)
}

// Appends the members of all hosts, with a comma between each two.
fn push_hosts(t: &Typed, text: &mut Vec<u8>) -> Result<(), AllocError>
    ensures { OnOk result (text.new.items ≡ text.old.items ++ hosts_text false (signatures_of (view_typed t.now))) }
{
    let mut later = false;
    for function in &t.functions {
        if function.signature.host {
            push_next(later, &function.signature, text)?;
            later = true;
        }
    }
    Ok(())
}

// Appends the member of a host, behind a comma where one stands before it.
fn push_next(later: bool, s: &Signature, text: &mut Vec<u8>) -> Result<(), AllocError>
    ensures { OnOk result (text.new.items ≡ text.old.items ++ (comma_if later ++ member_text s.now)) }
{
    if later {
        text.push(b',')?;
    }
    push_member(s, text)
}

// Appends the member of a host.
fn push_member(s: &Signature, text: &mut Vec<u8>) -> Result<(), AllocError>
    ensures { OnOk result (text.new.items ≡ text.old.items ++ member_text s.now) }
{
    push_key(s.name.as_slice(), text)?;
    text.extend_from_slice(entry_text(s).as_bytes())?;
    Ok(())
}

// Appends the key of a member.
fn push_key(name: &[u8], text: &mut Vec<u8>) -> Result<(), AllocError>
    ensures { OnOk result (text.new.items ≡ text.old.items ++ key_text name.now) }
{
    text.extend_from_slice(b"\"")?;
    text.extend_from_slice(name)?;
    text.extend_from_slice(b"\":")?;
    Ok(())
}

// The entry of a host.
fn entry_text(s: &Signature) -> &'static str
    ensures { result.now ≡ entry_text s.now }
{
    if s.result.is_some() {
        "{\"kind\":\"table\",\"rows\":[],\"else\":0}"
    } else {
        "{\"kind\":\"line\"}"
    }
}
