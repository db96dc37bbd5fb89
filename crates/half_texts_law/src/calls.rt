// Calls in a half's text come to the same as calls in the half, however deep they go: by induction over the
// depth, from the law of the statements. What functions without a body do is given for both; where all of them
// are hosts, nothing is left to be given.

ghost use Rattle.half_texts_law.specs.CallsAccepted.{AcceptedHalvesRunAlike};
ghost use Rattle.half_texts_law.specs.CallsLaws.{HalfCallsAgree, HalfFunctionsAgree, HalfHostsAgree, HalfHostStartsAgree, HalfStartsAgree};

use crate::declarations::accepted_halves_are_writable;

/// Calls with the same arguments, in states that are alike, come to the same, if calls of functions without a
/// body do.
pub fn half_calls_agree()
    ensures { HalfCallsAgree }
{}

/// So the statements of each function, judged where they stand in the half's own tree, mean with the text's own
/// calls what the half's mean with its own.
pub fn half_functions_agree()
    ensures { HalfFunctionsAgree }
{}

/// In a half that declares no other functions without a body than hosts, these calls are those of the source's
/// meaning and of the normal form's, and come to the same.
pub fn half_hosts_agree()
    ensures { HalfHostsAgree }
{}

/// A function that is entered where no function is active, main too, comes to the same in the half's text as in
/// the half, if calls of functions without a body do.
pub fn half_starts_agree()
    ensures { HalfStartsAgree }
{}

/// And so it does in a half that declares no other functions without a body than hosts, with the calls of both
/// meanings.
pub fn half_host_starts_agree()
    ensures { HalfHostStartsAgree }
{}

/// Both halves of a checked program that breaks no rule do so: the statements of each function, and each function
/// that is entered where none is active, come to the same in the half's text as in the half, if calls of functions
/// without a body do.
pub fn accepted_halves_run_alike()
    ensures { AcceptedHalvesRunAlike }
{
    accepted_halves_are_writable();
    half_functions_agree();
    half_starts_agree();
}
