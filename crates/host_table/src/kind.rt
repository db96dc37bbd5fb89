// The kinds of entries.
ghost use Rattle.std.specs.Prelude.{◌≡◌};
ghost use Rattle.serde_json.specs.View.{view};
ghost use Rattle.host_table.specs.Entries.{kind_of, kind_in};

use serde_json::Value;

/// The kind of an entry, by its word.
#[derive(Clone, Copy)]
pub(crate) enum Kind {
    Table,
    Feed,
    Input,
    Bytes,
    Line,
}

// The kind that a word names.
fn kind_of(word: &str) -> Option<Kind>
    ensures { result ≡ kind_of word.now }
{
    if word == "table" {
        Some(Kind::Table)
    } else if word == "feed" {
        Some(Kind::Feed)
    } else if word == "input" {
        Some(Kind::Input)
    } else if word == "bytes" {
        Some(Kind::Bytes)
    } else if word == "line" {
        Some(Kind::Line)
    } else {
        None
    }
}

// The kind of an entry.
pub(crate) fn kind_in(entry: &Value) -> Option<Kind>
    ensures { result ≡ kind_in (view entry.now) }
{
    match entry.get("kind").and_then(Value::as_str) {
        Some(word) => kind_of(word),
        None => None,
    }
}
