// What a slave starts from.
ghost use Rattle.std.specs.Prelude.{◌≡◌};
ghost use Rattle.pt_core.specs.BootLaw.{boot_with};
ghost use Rattle.pt_core.specs.CodeTree.{numbered, view_boot, view_slave};

use pt_base::{Bytes, FnId, Listed};
use pt_core::{Boot, SlaveProgram};
use pt_tree::HostModel;

/// What the slave starts from: its program, with these models for its hosts, this input and so many
/// turns. It takes no memory.
pub fn make_boot(
    program: SlaveProgram,
    hosts: Listed<(FnId, HostModel)>,
    input: Bytes,
    turns: u32,
) -> Boot
    ensures { view_boot result ≡ boot_with (view_slave program) (numbered hosts) input turns }
{
    Boot {
        structs: program.structs,
        signatures: program.signatures,
        functions: program.functions,
        globals: program.globals,
        hosts,
        input,
        turns,
    }
}
