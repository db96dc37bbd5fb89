// Reading a whole boot.
ghost use Rattle.pt_core.specs.CodeTree.{view_boot};
ghost use Rattle.boot_fields.specs.Reading.{Gives, deepest, boot_at};
ghost use Rattle.boots.specs.WholeReading.{IsBootOf};

use crate::fault::BootError;
use boot_fields::{ReadError, number_u32, text};
use boot_reading::list;
use pt_base::Listed;
use pt_core::Boot;
use std::alloc::Global;

#[tactic(auto, unfolding(boot_fields::specs::Reading::boot_at))]
fn boot(alloc: Global, bytes: &[u8]) -> Result<(Boot, &[u8]), ReadError>
    ensures { Gives (λ x. (view_boot x.0, x.1.now)) result (boot_at deepest bytes.now) }
{
    let (structs, rest) = list(alloc, bytes)?;
    let (signatures, rest) = list(alloc, rest)?;
    let (functions, rest) = list(alloc, rest)?;
    let (globals, rest) = list(alloc, rest)?;
    let (hosts, rest) = list(alloc, rest)?;
    let (input, rest) = text(alloc, rest)?;
    let (turns, rest) = number_u32(rest)?;
    let boot = Boot {
        structs: Listed::new(structs),
        signatures: Listed::new(signatures),
        functions,
        globals: Listed::new(globals),
        hosts: Listed::new(hosts),
        input,
        turns,
    };
    Ok((boot, rest))
}

/// The boot that the bytes spell, well formed or not, in time linear in them. It takes stack for
/// each node of code that stands inside another.
///
/// # Errors
///
/// `BadBoot` where they spell none, and `Memory` where memory runs out or where more than 1,048,576
/// nodes of code stand one inside the other. No length in the bytes takes more memory than what
/// stands behind it.
pub fn boot_of(alloc: Global, bytes: &[u8]) -> Result<Boot, BootError>
    ensures { IsBootOf bytes.now result }
{
    match boot(alloc, bytes) {
        Ok((boot, rest)) => {
            if !rest.is_empty() {
                return Err(BootError::BadBoot);
            }
            Ok(boot)
        }
        Err(ReadError::Bad) => Err(BootError::BadBoot),
        Err(ReadError::Memory) => Err(BootError::Memory),
    }
}
