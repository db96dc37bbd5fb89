// What is said of each kind of fault of a host table and of a policy.
ghost use Rattle.std.specs.Prelude.{◌≡◌, ◌++◌, OnOk};
ghost use Rattle.pair_explaining.specs.PairSentences as is;

use host_table::HostFault;
use policy::{PolicyFault, PolicyFaultKind};
use pt_base::FnId;
use std::alloc::AllocError;

// appends words
fn push_words(words: &str, text: &mut Vec<u8>) -> Result<(), AllocError>
    ensures { OnOk result (text.new.items ≡ text.old.items ++ words.now) }
{
    text.extend_from_slice(words.as_bytes())?;
    Ok(())
}

// appends the name of a host between words
fn push_naming(
    before: &str,
    name: &[u8],
    behind: &str,
    text: &mut Vec<u8>,
) -> Result<(), AllocError>
    ensures { OnOk result (text.new.items ≡ text.old.items ++ (before.now ++ name.now ++ behind.now)) }
{
    push_words(before, text)?;
    text.extend_from_slice(name)?;
    push_words(behind, text)
}

// appends what is said of an entry of another shape, or of a whole table
fn push_shape_sentence(
    function: Option<FnId>,
    name: &[u8],
    text: &mut Vec<u8>,
) -> Result<(), AllocError>
    ensures { OnOk result (text.new.items ≡ text.old.items ++ is.shape_sentence function name.now) }
{
    match function {
        Some(_) => push_naming(
            "the entry of `",
            name,
            "` isn't shaped as one of the kinds table, feed, input, bytes and line",
            text,
        ),
        None => push_words(
            "this is JSON, and no object with an entry for each host",
            text,
        ),
    }
}

/// Appends what is said of a fault of a host table: of the whole, or of the entry of the host of this name.
pub(crate) fn push_host_sentence(
    fault: HostFault,
    name: &[u8],
    text: &mut Vec<u8>,
) -> Result<(), AllocError>
    ensures { OnOk result (text.new.items ≡ text.old.items ++ is.host_sentence fault name.now) }
{
    match fault {
        HostFault::NotJson => push_words("this can't be read as JSON in UTF-8", text),
        HostFault::Shape(function) => push_shape_sentence(function, name, text),
        HostFault::Missing(_) => push_naming("the host table has no entry for `", name, "`", text),
        HostFault::Range(_) => push_naming(
            "a number in the entry of `",
            name,
            "` doesn't fit its type",
            text,
        ),
        HostFault::WrongParams(_) => push_naming(
            "the entry of `",
            name,
            "` doesn't fit its parameters, their marks or its result",
            text,
        ),
        HostFault::TwoInputs(_) => push_naming(
            "the entry of `",
            name,
            "` is a second one of the kind input",
            text,
        ),
        HostFault::TooLong => push_words("the table has more than 1048576 bytes", text),
    }
}

// what is said of too many rules at a line, or of too many bytes
fn long_sentence(line: u32) -> &'static str
    ensures { result.now ≡ is.long_sentence line }
{
    if line == 0 {
        "the policy has more than 1048576 bytes"
    } else {
        "a policy has at most 4096 rules"
    }
}

/// What is said of the fault of a policy.
pub(crate) fn policy_sentence(fault: PolicyFault) -> &'static str
    ensures { result.now ≡ is.policy_sentence fault.kind fault.line }
{
    match fault.kind {
        PolicyFaultKind::Syntax =>
            "this is no rule: from STATE allow FUNCTION [argI in LOW..HIGH]* [at most COUNT] to STATE",
        PolicyFaultKind::UnknownFunction =>
            "no function or host marked priv has the name behind allow",
        PolicyFaultKind::UnseenArg =>
            "a range is for an argument that isn't there, is a pointer or is marked priv",
        PolicyFaultKind::TooLong => long_sentence(fault.line),
    }
}
