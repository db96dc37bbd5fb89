// The functions of a program, by number and by name.
ghost use Rattle.policy.specs.Named.{HaveNumbers};

use crate::names::numbers_by_name;
use pt_base::FnId;
use pt_tree::{Param, Signature};
use std::alloc::{AllocError, Global};
use std::collections::HashMap;

/// The functions of a program, with their numbers by name.
#[derive(Drop)]
pub(crate) struct Functions<'a> {
    signatures: &'a [&'a Signature],
    numbers: HashMap<&'a [u8], u32>,
    ghost named: { HaveNumbers numbers.entries signatures.now },
}

impl<'a> Functions<'a> {
    ghost use Rattle.std.specs.Prelude.{◌≡◌, ◌<◌, ◌^◌, IfOk, length, map};
    ghost use Rattle.std.specs.Option.{option_map};
    ghost use Rattle.policy.specs.ProgramRules.{guarded_function, guarded_params};
    ghost use Rattle.policy.specs.Functions.{known};

    /// An index of these functions.
    pub(crate) fn new(
        alloc: Global,
        signatures: &'a [&'a Signature],
    ) -> Result<Functions<'a>, AllocError>
        requires { length signatures.now < 2 ^ 32 }
        ensures { IfOk result (λ f. known f ≡ map (λ s. s.now) signatures.now) }
    {
        let numbers = numbers_by_name(alloc, signatures)?;
        Ok(Functions {
            signatures,
            numbers,
        })
    }

    /// The number and the parameters of the privileged function or host of that name.
    pub(crate) fn guarded(&self, name: &[u8]) -> Option<(FnId, &'a [Param])>
        ensures number { option_map (λ p. p.0.0) result ≡ guarded_function (known self.now) name.now }
        ensures params { option_map (λ p. p.1.now) result ≡ guarded_params (known self.now) name.now }
    {
        let number = *self.numbers.get(&name)?;
        let signature = self.signatures.get(number as usize)?;
        if signature.privileged {
            Some((FnId(number), signature.params.as_slice()))
        } else {
            None
        }
    }
}
