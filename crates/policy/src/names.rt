// The numbers of functions, by name.
ghost use Rattle.std.specs.Prelude.{◌<◌, ◌^◌, IfOk, length};
ghost use Rattle.policy.specs.Named.{HaveNumbers};

use pt_tree::Signature;
use std::alloc::{AllocError, Global};
use std::collections::HashMap;

/// The number of each function by its name, and of the first where names repeat.
pub(crate) fn numbers_by_name<'a>(
    alloc: Global,
    signatures: &'a [&'a Signature],
) -> Result<HashMap<&'a [u8], u32>, AllocError>
    requires { length signatures.now < 2 ^ 32 }
    ensures { IfOk result (λ m. HaveNumbers m.entries signatures.now) }
{
    let mut numbers = HashMap::new(alloc);
    let mut next = signatures.len();
    while next > 0 {
        next -= 1;
        let signature = signatures[next];
        numbers.insert(signature.name.as_slice(), next as u32)?;
    }
    Ok(numbers)
}
