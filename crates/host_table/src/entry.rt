// The entries of hosts.
ghost use Rattle.std.specs.Prelude.{◌≡◌, IfOk, option_map};
ghost use Rattle.serde_json.specs.Find.{get};
ghost use Rattle.serde_json.specs.View.{view};
ghost use Rattle.host_table.specs.Entries.{table_in, feed_in, model_of_kind, model_in, entry_of};

use crate::items::{other, rows, values};
use crate::kind::{Kind, kind_in};
use pt_base::Bytes;
use pt_tree::{HostModel, Signature};
use serde_json::Value;
use std::alloc::{AllocError, Global};
use std::str;

/// What a table has for a host.
#[derive(Drop)]
pub(crate) enum Entry {
    /// No member of its name.
    Missing,
    /// A member that is no entry.
    Misshaped,
    /// An entry, which says that this model stands for the host.
    Shaped(HostModel),
}

/// What the table has for the host.
pub(crate) fn entry_of(alloc: Global, table: &Value, s: &Signature) -> Result<Entry, AllocError>
    ensures { IfOk result (λ e. e ≡ entry_of (view table.now) s.now) }
{
    let Some(entry) = member(table, s.name.as_slice()) else {
        return Ok(Entry::Missing);
    };
    match model_in(alloc, &s.name, entry)? {
        Some(model) => Ok(Entry::Shaped(model)),
        None => Ok(Entry::Misshaped),
    }
}

// The member of this name, which may be no text.
fn member<'v>(table: &'v Value, name: &[u8]) -> Option<&'v Value>
    ensures { option_map (λ v. view v.now) result ≡ get name.now (view table.now) }
{
    match str::from_utf8(name) {
        Ok(name) => table.get(name),
        Err(_) => None,
    }
}

// The model of an entry.
fn model_in(alloc: Global, name: &Bytes, entry: &Value) -> Result<Option<HostModel>, AllocError>
    ensures { IfOk result (λ o. o ≡ model_in name.now (view entry.now)) }
{
    match kind_in(entry) {
        Some(kind) => model_of_kind(alloc, name, entry, kind),
        None => Ok(None),
    }
}

// The model of an entry of this kind.
fn model_of_kind(
    alloc: Global,
    name: &Bytes,
    entry: &Value,
    kind: Kind,
) -> Result<Option<HostModel>, AllocError>
    ensures { IfOk result (λ o. o ≡ model_of_kind name.now (view entry.now) kind) }
{
    match kind {
        Kind::Table => table(alloc, entry),
        Kind::Feed => feed(alloc, entry),
        Kind::Input => Ok(Some(HostModel::Input { next: 0 })),
        Kind::Bytes => Ok(Some(HostModel::Bytes)),
        Kind::Line => Ok(Some(HostModel::Line {
            name: name.copy(alloc)?,
        })),
    }
}

// The model of an entry of kind table.
fn table(alloc: Global, entry: &Value) -> Result<Option<HostModel>, AllocError>
    ensures { IfOk result (λ o. o ≡ table_in (view entry.now)) }
{
    let Some(rows) = rows(alloc, entry)? else {
        return Ok(None);
    };
    let Some(other) = other(entry) else {
        return Ok(None);
    };
    Ok(Some(HostModel::Table { rows, other }))
}

// The model of an entry of kind feed.
fn feed(alloc: Global, entry: &Value) -> Result<Option<HostModel>, AllocError>
    ensures { IfOk result (λ o. o ≡ feed_in (view entry.now)) }
{
    let Some(values) = values(alloc, entry)? else {
        return Ok(None);
    };
    let Some(other) = other(entry) else {
        return Ok(None);
    };
    Ok(Some(HostModel::Feed {
        values,
        other,
        next: 0,
    }))
}
