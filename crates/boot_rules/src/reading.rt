// Reading the boots that are well formed.
ghost use Rattle.boot_rules.specs.Answers.{IsGoodBootOf};

use crate::well_formed::is_well_formed;
use boots::{BootError, boot_of};
use pt_core::Boot;
use std::alloc::Global;

/// The well-formed boot that the bytes spell. It takes time n log n in their number, and stack for
/// each node of code that stands inside another.
///
/// # Errors
///
/// `BadBoot` where they spell no boot, or one that isn't well formed; `Memory` where memory runs out
/// or where more than 1,048,576 nodes of code stand one inside the other.
pub fn read_boot(alloc: Global, bytes: &[u8]) -> Result<Boot, BootError>
    ensures { IsGoodBootOf bytes.now result }
{
    let boot = match boot_of(alloc, bytes) {
        Ok(boot) => boot,
        Err(error) => return Err(error),
    };
    let Ok(good) = is_well_formed(alloc, &boot) else {
        return Err(BootError::Memory);
    };
    if !good {
        return Err(BootError::BadBoot);
    }
    Ok(boot)
}
