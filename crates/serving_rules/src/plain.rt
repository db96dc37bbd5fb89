// What the policy sees of a call.
ghost use Rattle.std.specs.Prelude.{◌≡◌, ◌∷◌, ◌++◌, ℤ, List, IfOk, OnOk, if◌then◌else◌, map};
ghost use Rattle.pt_tree.specs.PlainNumbers.{is_plain, plain_numbers};
ghost use Rattle.pair_meaning.specs.Rules.{number_in_argument, plain_of};

use policy::is_plain;
use pt_tree::{Param, Signature};
use std::alloc::{AllocError, Global};
use wire::{Arg, CallBody};

// The numbers that a call gives for integer parameters that aren't marked.
pub(crate) fn plain_of(
    alloc: Global,
    sig: &Signature,
    body: &CallBody,
) -> Result<Vec<i128>, AllocError>
    ensures { IfOk result (λ v. v.items ≡ plain_of sig.now body.now) }
{
    plain_numbers(alloc, sig.params.as_slice(), body.args.as_slice())
}

fn plain_numbers(alloc: Global, params: &[Param], args: &[Arg]) -> Result<Vec<i128>, AllocError>
    ensures { IfOk result (λ v. v.items ≡ plain_numbers params.now (map number_in_argument args.now)) }
{
    let mut plain = Vec::new(alloc);
    let mut rest = params;
    for arg in args {
        let [param, later @ ..] = rest else {
            return Ok(plain);
        };
        add(&mut plain, param, *arg)?;
        rest = later;
    }
    Ok(plain)
}

// An argument's number, where its parameter takes an integer and isn't marked.
fn add(plain: &mut Vec<i128>, param: &Param, arg: Arg) -> Result<(), AllocError>
    ensures { OnOk result ((later : List ℤ) → plain.new.items ++ later ≡ plain.old.items ++ (if is_plain param.now.kind param.now.marked then number_in_argument arg ∷ later else later)) }
{
    if is_plain(param) {
        plain.push(number_in(arg))?;
    }
    Ok(())
}

// 0 for what is no number.
fn number_in(arg: Arg) -> i128
    ensures { result ≡ number_in_argument arg }
{
    match arg {
        Arg::Number(number) => number,
        Arg::Sealed(_) | Arg::Null | Arg::At { .. } => 0,
    }
}
