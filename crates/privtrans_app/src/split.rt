// A split: the program is read, and its halves go to two files as C texts.
ghost use Rattle.std.specs.Prelude.{◌≡◌, ◌≤◌, ◌+◌, IfErr, OnOk};
ghost use Rattle.pt_base.specs.Files.{HoldsAt, SameOthers};
ghost use Rattle.privtrans_app.specs.Comes.{ComesAlone};
ghost use Rattle.privtrans_app.specs.Ending.{status_of};
ghost use Rattle.privtrans_app.specs.EndingSeen.{ending_seen};
ghost use Rattle.privtrans_app.specs.Once.{FailsOnce, ReadsFail};
ghost use Rattle.privtrans_app.specs.Outside.{Outside, folder_told};
ghost use Rattle.privtrans_app.specs.SplitRun.{AreWritten, IsUnwritten, SameBut};
ghost use Rattle.privtrans_app.specs.Words.{IsAsked};
ghost use Rattle.privtrans_app.specs.WordsSeen.{split_seen};

use crate::ending::{Ending, Report, stopped};
use crate::reading::{read_all, text_at};
use crate::words::SplitWords;
use program_split::HalfTexts;
use pt_base::{Folder, FolderFault, Watch};
use std::alloc::Global;
use std::thread::Threads;

// Writes a text to a file.
fn write_text<'a, F: Folder>(
    alloc: Global,
    folder: &mut F,
    name: &str,
    text: &[u8],
) -> Result<(), Ending<'a>>
    ensures ok { OnOk result (HoldsAt (F.files folder.new) name.now text.now) }
    ensures err { IfErr result (λ e. IsUnwritten (F.write_faults folder.old) (F.write_faults folder.new) (ending_seen e)) }
    ensures others { SameOthers (F.files folder.old) (F.files folder.new) name.now }
    ensures reads { F.read_faults folder.new ≡ F.read_faults folder.old }
    ensures unfailed { F.failed_reads folder.new ≡ F.failed_reads folder.old }
    ensures later { F.write_faults folder.old ≤ F.write_faults folder.new }
    ensures stays { OnOk result (F.write_faults folder.new ≡ F.write_faults folder.old) }
    ensures once { IfErr result (λ e. FailsOnce (F.write_faults folder.old) (F.write_faults folder.new) (status_of (ending_seen e))) }
{
    match folder.write(alloc, name, text) {
        Ok(()) => Ok(()),
        Err(FolderFault::Failed) => Err(Ending::WriteFault),
        Err(FolderFault::Memory) => Err(Ending::Memory),
        Err(FolderFault::Missing) => unreachable!(),
    }
}

// Writes both halves, the slave's first.
fn write_halves<'a, F: Folder>(
    alloc: Global,
    words: &SplitWords<'_>,
    folder: &mut F,
    slave: &[u8],
    monitor: &[u8],
) -> Ending<'a>
    requires apart { words.now.slave.now ≡ words.now.monitor.now → ⊥ }
    ensures ending { AreWritten words.now (F.files folder.old) (F.files folder.new) (F.write_faults folder.old) (F.write_faults folder.new) slave.now monitor.now (ending_seen result) }
    ensures others { SameBut (F.files folder.old) (F.files folder.new) words.now.slave.now words.now.monitor.now }
    ensures reads { F.read_faults folder.new ≡ F.read_faults folder.old }
    ensures unfailed { F.failed_reads folder.new ≡ F.failed_reads folder.old }
    ensures later { F.write_faults folder.old ≤ F.write_faults folder.new }
    ensures once { FailsOnce (F.write_faults folder.old) (F.write_faults folder.new) (status_of (ending_seen result)) }
{
    if let Err(ending) = write_text(alloc, folder, words.slave, slave) {
        return ending;
    }
    if let Err(ending) = write_text(alloc, folder, words.monitor, monitor) {
        return ending;
    }
    Ending::Told(Report::Split)
}

/// Splits the program in the file that the words name.
pub(crate) fn split<'a, R: Threads + Sync, F: Folder, W: Watch>(
    rt: &R,
    alloc: Global,
    words: &SplitWords<'a>,
    folder: &mut F,
    watch: &W,
) -> Ending<'a>
    requires { IsAsked (split_seen words.now) }
    ensures ending { (b a : Outside) → ComesAlone (Unit {0}) (split_seen words.now) (record b { folder = folder_told F.files F.read_faults F.failed_reads F.write_faults folder.old })
        (record a { folder = folder_told F.files F.read_faults F.failed_reads F.write_faults folder.new; out = b.out }) (ending_seen result) }
    ensures others { SameBut (F.files folder.old) (F.files folder.new) words.now.slave.now words.now.monitor.now }
    ensures later { (F.read_faults folder.old ≤ F.read_faults folder.new) × (F.write_faults folder.old ≤ F.write_faults folder.new) }
    ensures once { FailsOnce (F.read_faults folder.old + F.write_faults folder.old) (F.read_faults folder.new + F.write_faults folder.new) (status_of (ending_seen result)) }
    ensures failed { ReadsFail (F.failed_reads folder.old) (F.failed_reads folder.new) (status_of (ending_seen result)) }
{
    let texts = match read_all(alloc, folder, &[words.program]) {
        Ok(texts) => texts,
        Err(ending) => return ending,
    };
    match program_split::split(rt, alloc, text_at(texts.as_slice(), 0), watch) {
        Ok(HalfTexts { slave, monitor }) => {
            write_halves(alloc, words, folder, slave.as_slice(), monitor.as_slice())
        }
        Err(stop) => stopped(alloc, stop),
    }
}
