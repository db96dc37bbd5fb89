// The folder that a program's files lie in.
ghost use Rattle.std.specs.Prelude.{◌≡◌, ◌⊎◌, ℕ, ◌≤◌, List, IfOk, OnOk, IsErrOf, vec_len, Option};
ghost use Rattle.pt_base.specs.Faults.{Rose, HasCause};
ghost use Rattle.pt_base.specs.Files.{Files, SameFiles, SameOthers, HoldsAt, GivesFirst, Lacks};

use std::alloc::{AllocError, AllocFailed, Global};

/// What a folder answers in place of a file.
#[derive(Clone, Copy)]
pub enum FolderFault {
    /// No file of this name is held.
    Missing,
    /// The file can't be read or written.
    Failed,
    /// Want of memory.
    Memory,
}

impl From<AllocError> for FolderFault {
    ghost use Rattle.std.specs.Prelude.{◌≡◌};
    ghost use Rattle.pt_base.specs.declared.folder.FolderFault.TheVariants.{Memory};

    ghost from_gives = { λ _ e. e ≡ Memory };

    fn from(_: AllocError) -> Self {
        FolderFault::Memory
    }
}

impl<T: Drop> From<AllocFailed<T>> for FolderFault {
    ghost use Rattle.std.specs.Prelude.{◌≡◌};
    ghost use Rattle.pt_base.specs.declared.folder.FolderFault.TheVariants.{Memory};

    ghost from_gives = { λ _ e. e ≡ Memory };

    fn from(_: AllocFailed<T>) -> Self {
        FolderFault::Memory
    }
}

/// A folder of named files. What it holds is told optionally; its counts of faults never fall, and a
/// call raises its own by one at most and not at all where it serves or memory is wanting.
pub trait Folder {
    /// What each name holds.
    ghost files: { Self → Option Files };

    /// How many reads failed, or missed a file that may be held.
    ghost read_faults: { Self → ℕ };

    /// How many reads failed.
    ghost failed_reads: { Self → ℕ };

    /// How many writes failed.
    ghost write_faults: { Self → ℕ };

    /// The bytes of the file, but none behind the first `limit`. Missing comes only where no such file
    /// is held or the count of reads' faults rose, and no read failed; Failed comes only where both
    /// counts rose.
    fn read(&mut self, alloc: Global, name: &str, limit: usize) -> Result<Vec<u8>, FolderFault>
        ensures content { IfOk result (λ v. GivesFirst (files self.old) name.now limit v.items) }
        ensures length { IfOk result (λ v. vec_len v ≤ limit) }
        ensures missing { IsErrOf result FolderFault.Missing →
            Lacks (files self.old) name.now ⊎ Rose (read_faults self.old) (read_faults self.new) }
        ensures same { SameFiles (files self.old) (files self.new) }
        ensures cause { HasCause (read_faults self.old) (read_faults self.new) result FolderFault.Failed FolderFault.Memory }
        ensures failed { HasCause (failed_reads self.old) (failed_reads self.new) result FolderFault.Failed FolderFault.Memory }
        ensures unfailed { IsErrOf result FolderFault.Missing → failed_reads self.new ≡ failed_reads self.old }
        ensures writes { write_faults self.new ≡ write_faults self.old };

    /// Makes the file hold these bytes. After a refusal the named file is unknown and the others
    /// are as before. Failed comes only where the count of failed writes rose, Missing never.
    fn write(&mut self, alloc: Global, name: &str, bytes: &[u8]) -> Result<(), FolderFault>
        ensures content { OnOk result (HoldsAt (files self.new) name.now bytes.now) }
        ensures others { SameOthers (files self.old) (files self.new) name.now }
        ensures held { IsErrOf result FolderFault.Missing → ⊥ }
        ensures cause { HasCause (write_faults self.old) (write_faults self.new) result FolderFault.Failed FolderFault.Memory }
        ensures reads { read_faults self.new ≡ read_faults self.old }
        ensures failed { failed_reads self.new ≡ failed_reads self.old };
}
