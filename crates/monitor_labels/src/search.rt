// Searches by halves in lists that are in the order of their numbers.
ghost use Rattle.std.specs.Prelude.{◌≡◌, IfSome, IsTrue, map, nat_eq};
ghost use Rattle.std.specs.List.{find};
ghost use Rattle.std.specs.Option.{option_copied};
ghost use Rattle.typed_tree.specs.WellFormed.{are_rising};
ghost use Rattle.monitor_labels.specs.Searching.{IsAt};

use pt_base::{FnId, GlobalId};
use pt_core::{CoreFn, Entry, GlobalVar};
use pt_tree::Signature;

/// The place of the function of this number.
pub(crate) fn function_place(functions: &[CoreFn], f: FnId) -> Option<usize>
    ensures { IfSome result (λ i. IsAt (λ g. g.id.0) f.0 functions.now i) }
{
    match functions.binary_search_by_key(&f.0, |function| function.id.0) {
        Ok(place) => Some(place),
        Err(_) => None,
    }
}

/// The place of the signature of this number.
pub(crate) fn signature_place(signatures: &[(FnId, Signature)], f: FnId) -> Option<usize>
    ensures { IfSome result (λ i. IsAt (λ s. s.0.0) f.0 signatures.now i) }
{
    match signatures.binary_search_by_key(&f.0, |entry| entry.0.0) {
        Ok(place) => Some(place),
        Err(_) => None,
    }
}

/// The place of the global of this number.
pub(crate) fn global_place(globals: &[GlobalVar], g: GlobalId) -> Option<usize>
    ensures { IfSome result (λ i. IsAt (λ x. x.id.0) g.0 globals.now i) }
{
    match globals.binary_search_by_key(&g.0, |global| global.id.0) {
        Ok(place) => Some(place),
        Err(_) => None,
    }
}

/// The entry of the function of this number.
pub(crate) fn entry_of(entries: &[Entry], f: FnId) -> Option<&Entry>
    requires { IsTrue (are_rising 0 (map (λ e. e.function.0) entries.now)) }
    ensures { option_copied result ≡ find (λ e. nat_eq f.0 e.function.0) entries.now }
{
    match entries.binary_search_by_key(&f.0, |entry| entry.function.0) {
        Ok(place) => Some(&entries[place]),
        Err(_) => None,
    }
}
