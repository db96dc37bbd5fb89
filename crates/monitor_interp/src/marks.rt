// Which functions of a program are hosts.
ghost use Rattle.std.specs.Prelude.{◌≡◌, IfOk, IsTrue, map, nat_eq, true, unwrap_or};
ghost use Rattle.std.specs.Map.{lookup};
ghost use Rattle.typed_tree.specs.WellFormed.{are_rising};
ghost use Rattle.pt_core.specs.CodeTree.{numbered};
ghost use Rattle.monitor_interp.specs.Marks.{mark_of};

use pt_base::FnId;
use pt_tree::Signature;
use std::alloc::{AllocError, Global};

/// A function's number, and whether it is a host.
#[derive(Drop)]
pub(crate) struct Mark {
    pub number: u32,
    pub host: bool,
}

/// The mark of each signature.
pub(crate) fn marks_of(
    alloc: Global,
    signatures: &[(FnId, Signature)],
) -> Result<Vec<Mark>, AllocError>
    ensures { IfOk result (λ v. v.items ≡ map mark_of (numbered signatures.now)) }
{
    let mut marks = Vec::new(alloc);
    for entry in signatures {
        marks.push(Mark {
            number: entry.0.0,
            host: entry.1.host,
        })?;
    }
    Ok(marks)
}

/// Whether the function of this number is a host; None where there is none. It is searched for by halves.
pub(crate) fn host_at(marks: &[Mark], f: FnId) -> Option<bool>
    requires { IsTrue (are_rising 0 (map (λ m. m.number) marks.now)) }
    ensures { result ≡ lookup (nat_eq f.0) (map (λ m. (m.number, m.host)) marks.now) }
{
    match marks.binary_search_by_key(&f.0, |mark| mark.number) {
        Ok(place) => Some(marks[place].host),
        Err(_) => None,
    }
}

/// The same, where what isn't there counts as a host.
pub(crate) fn is_host(marks: &[Mark], f: FnId) -> bool
    requires { IsTrue (are_rising 0 (map (λ m. m.number) marks.now)) }
    ensures { result ≡ unwrap_or (lookup (nat_eq f.0) (map (λ m. (m.number, m.host)) marks.now)) true }
{
    match host_at(marks, f) {
        Some(host) => host,
        None => true,
    }
}
