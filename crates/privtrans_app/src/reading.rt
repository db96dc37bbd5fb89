// The texts of files.
ghost use Rattle.std.specs.Prelude.{◌≡◌, ◌≤◌, [], IfOk, IfErr, OnOk, map};
ghost use Rattle.pt_base.specs.Files.{SameFiles, GivesFirst};
ghost use Rattle.privtrans_app.specs.Ending.{status_of};
ghost use Rattle.privtrans_app.specs.EndingSeen.{ending_seen};
ghost use Rattle.privtrans_app.specs.Gives.{text_at};
ghost use Rattle.privtrans_app.specs.Once.{FailsOnce, ReadsFail};
ghost use Rattle.privtrans_app.specs.Reading.{AreFirst, IsReadRefusal, IsRefusal};

use crate::ending::Ending;
use pt_base::{Bytes, Folder, FolderFault};
use std::alloc::Global;

/// The most bytes that a text may have.
const MOST_BYTES: usize = 1_048_576;

/// The text with this number, from 0; none behind the last.
pub(crate) fn text_at<'t>(texts: &'t [Bytes], n: usize) -> &'t [u8]
    ensures { result.now ≡ text_at texts.now n }
{
    match texts.get(n) {
        Some(text) => text.as_slice(),
        None => &[],
    }
}

// The first bytes of a file, one more than a text may have.
fn read_text<'a, F: Folder>(
    alloc: Global,
    folder: &mut F,
    name: &'a str,
) -> Result<Vec<u8>, Ending<'a>>
    ensures content { IfOk result (λ v. GivesFirst (F.files folder.old) name.entry.now 1048577 v.items) }
    ensures refusal { IfErr result (λ e. IsReadRefusal name.entry.now (F.files folder.old)
        (F.read_faults folder.old) (F.read_faults folder.new) (ending_seen e)) }
    ensures same { SameFiles (F.files folder.old) (F.files folder.new) }
    ensures writes { F.write_faults folder.new ≡ F.write_faults folder.old }
    ensures later { F.read_faults folder.old ≤ F.read_faults folder.new }
    ensures once { IfErr result (λ e. FailsOnce (F.read_faults folder.old) (F.read_faults folder.new) (status_of (ending_seen e))) }
    ensures stays { OnOk result (F.read_faults folder.new ≡ F.read_faults folder.old) }
    ensures failed { IfErr result (λ e. ReadsFail (F.failed_reads folder.old) (F.failed_reads folder.new) (status_of (ending_seen e))) }
    ensures unfailed { OnOk result (F.failed_reads folder.new ≡ F.failed_reads folder.old) }
{
    match folder.read(alloc, name, MOST_BYTES + 1) {
        Ok(bytes) => Ok(bytes),
        Err(FolderFault::Missing) => Err(Ending::Missing(name)),
        Err(FolderFault::Failed) => Err(Ending::ReadFault(name)),
        Err(FolderFault::Memory) => Err(Ending::Memory),
    }
}

/// The first bytes of each of these files, one more than a text may have. They are read one after the other, up to the
/// first that can't be.
pub(crate) fn read_all<'a, F: Folder>(
    alloc: Global,
    folder: &mut F,
    names: &[&'a str],
) -> Result<Vec<Bytes>, Ending<'a>>
    ensures texts { IfOk result (λ v. AreFirst (F.files folder.old) (map (λ n. n.now) names.now) v.items) }
    ensures refusal { IfErr result (λ e. IsRefusal (map (λ n. n.now) names.now) (F.files folder.old)
        (F.read_faults folder.old) (F.read_faults folder.new) (ending_seen e)) }
    ensures unread { names.now ≡ [] → folder.new ≡ folder.old }
    ensures same { SameFiles (F.files folder.old) (F.files folder.new) }
    ensures writes { F.write_faults folder.new ≡ F.write_faults folder.old }
    ensures later { F.read_faults folder.old ≤ F.read_faults folder.new }
    ensures once { IfErr result (λ e. FailsOnce (F.read_faults folder.old) (F.read_faults folder.new) (status_of (ending_seen e))) }
    ensures stays { OnOk result (F.read_faults folder.new ≡ F.read_faults folder.old) }
    ensures failed { IfErr result (λ e. ReadsFail (F.failed_reads folder.old) (F.failed_reads folder.new) (status_of (ending_seen e))) }
    ensures unfailed { OnOk result (F.failed_reads folder.new ≡ F.failed_reads folder.old) }
{
    let mut texts = Vec::new(alloc);
    for name in names {
        let text = match read_text(alloc, folder, name) {
            Ok(text) => text,
            Err(ending) => return Err(ending),
        };
        let Ok(()) = texts.push(Bytes::new(text)) else {
            return Err(Ending::Memory);
        };
    }
    Ok(texts)
}
