// The names in a half's text.
ghost use Rattle.std.specs.Prelude.{◌≡◌, ◌++◌, IfOk, None, Some};
ghost use Rattle.std.specs.Fmt.{decimal};
ghost use Rattle.std.specs.List.{list_all};
ghost use Rattle.std.specs.Option.{option_copied};
ghost use Rattle.half_trees.specs.Names as names;

use itoa::Buffer;
use pt_base::{Bytes, Span};
use pt_tree::{Signature, Word};
use std::alloc::{AllocError, Global};
use typed_tree::{Field, StructInfo, is_main};

/// Where all parts of a half's tree lie: it has no text yet.
pub(crate) const NOWHERE: Span = Span { from: 0, to: 0 };

/// The word with these bytes.
pub(crate) fn word(bytes: Vec<u8>) -> Word
    ensures { result ≡ names.word bytes.items }
{
    Word {
        span: NOWHERE,
        bytes: Bytes::new(bytes),
    }
}

// A prefix and a number in decimal.
fn numbered(alloc: Global, prefix: &[u8], n: usize) -> Result<Vec<u8>, AllocError>
    ensures { IfOk result (λ v. v.items ≡ prefix.now ++ decimal n) }
{
    let mut buffer = Buffer::new();
    let mut name = Vec::from_slice(alloc, prefix)?;
    name.extend_from_slice(buffer.format(n).as_bytes())?;
    Ok(name)
}

fn is_between(low: u8, high: u8, b: u8) -> bool
    ensures { result ≡ names.is_between low high b }
{
    low <= b && b <= high
}

// Whether it is a letter or `_`.
fn is_name_start(b: u8) -> bool
    ensures { result ≡ names.is_name_start b }
{
    is_between(b'A', b'Z', b) || (is_between(b'a', b'z', b) || b == b'_')
}

// Whether it is a letter, a digit or `_`.
fn is_name_byte(b: u8) -> bool
    ensures { result ≡ names.is_name_byte b }
{
    is_between(b'0', b'9', b) || is_name_start(b)
}

// Whether all are letters, digits and `_`.
fn are_name_bytes(bytes: &[u8]) -> bool
    ensures { result ≡ list_all names.is_name_byte bytes.now }
{
    bytes.iter().all(|b| is_name_byte(*b))
}

// Whether it is made of letters, digits and `_`, and begins with no digit.
fn is_identifier(name: &[u8]) -> bool
    ensures { result ≡ names.is_identifier name.now }
{
    match name {
        [] => false,
        [first, rest @ ..] => is_name_start(*first) && are_name_bytes(rest),
    }
}

// A prefix and the name, or the number where the name is no identifier.
fn named_by(alloc: Global, prefix: &[u8], n: usize, name: &[u8]) -> Result<Vec<u8>, AllocError>
    ensures { IfOk result (λ v. v.items ≡ names.named prefix.now n (Some name.now)) }
{
    if !is_identifier(name) {
        return numbered(alloc, prefix, n);
    }
    let mut bytes = Vec::from_slice(alloc, prefix)?;
    bytes.extend_from_slice(name)?;
    Ok(bytes)
}

/// The name of a variable.
pub(crate) fn local_name(alloc: Global, v: usize) -> Result<Vec<u8>, AllocError>
    ensures { IfOk result (λ b. b.items ≡ names.local_name v) }
{
    numbered(alloc, b"v_", v)
}

/// The name of a global.
pub(crate) fn global_name(alloc: Global, g: usize) -> Result<Vec<u8>, AllocError>
    ensures { IfOk result (λ b. b.items ≡ names.global_name g) }
{
    numbered(alloc, b"g_", g)
}

/// The name of a function by its number and what it is called with.
pub(crate) fn signature_name(
    alloc: Global,
    f: usize,
    signature: &Signature,
) -> Result<Vec<u8>, AllocError>
    ensures { IfOk result (λ b. b.items ≡ names.function_by f (Some signature.now)) }
{
    if is_main(signature) {
        return Vec::from_slice(alloc, b"main");
    }
    named_by(alloc, b"f_", f, signature.name.as_slice())
}

/// The name of a function by its number and what it is called with, if that is known.
pub(crate) fn function_name(
    alloc: Global,
    f: usize,
    signature: Option<&Signature>,
) -> Result<Vec<u8>, AllocError>
    ensures { IfOk result (λ b. b.items ≡ names.function_by f (option_copied signature.entry)) }
{
    match signature {
        Some(signature) => signature_name(alloc, f, signature),
        None => numbered(alloc, b"f_", f),
    }
}

/// The tag of a struct.
pub(crate) fn struct_name(
    alloc: Global,
    structs: &[StructInfo],
    n: usize,
) -> Result<Vec<u8>, AllocError>
    ensures { IfOk result (λ b. b.items ≡ names.struct_name structs.now n) }
{
    match structs.get(n) {
        Some(info) => named_by(alloc, b"s_", n, info.name.as_slice()),
        None => numbered(alloc, b"s_", n),
    }
}

/// The name of a field.
pub(crate) fn field_name(alloc: Global, fields: &[Field], k: usize) -> Result<Vec<u8>, AllocError>
    ensures { IfOk result (λ b. b.items ≡ names.field_by fields.now k) }
{
    match fields.get(k) {
        Some(field) => named_by(alloc, b"m_", k, field.name.as_slice()),
        None => numbered(alloc, b"m_", k),
    }
}
