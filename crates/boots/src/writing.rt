// Writing a whole boot.
ghost use Rattle.std.specs.Prelude.{IfOk};
ghost use Rattle.pt_core.specs.CodeTree.{view_boot};
ghost use Rattle.boot_fields.specs.Limits.{Spells};

use boot_fields::put_text;
use boot_writing::put_list;
use pt_core::Boot;
use std::alloc::{AllocError, Global};
use wire::put_u32;

/// The spelling of a boot, in time linear in its length. However long a chain of operators is to
/// the left, it takes no stack; other nesting of expressions and of statements does.
///
/// # Errors
///
/// Memory ran out.
pub fn boot_bytes(alloc: Global, boot: &Boot) -> Result<Vec<u8>, AllocError>
    ensures { IfOk result (λ bytes. Spells (view_boot boot.now) bytes.items) }
{
    let mut out = Vec::new(alloc);
    put_list(&mut out, boot.structs.as_slice())?;
    put_list(&mut out, boot.signatures.as_slice())?;
    put_list(&mut out, &boot.functions)?;
    put_list(&mut out, boot.globals.as_slice())?;
    put_list(&mut out, boot.hosts.as_slice())?;
    put_text(&mut out, &boot.input)?;
    put_u32(&mut out, boot.turns)?;
    Ok(out)
}
