// The top call.
ghost use Rattle.std.specs.Prelude.{◌≡◌, ◌≤◌, ◌+◌, [], ℕ, false, map};
ghost use Rattle.std.specs.Io.KnownBytes.{Appends};
ghost use Rattle.honest_link.specs.Came.{Started};
ghost use Rattle.pt_base.specs.Files.{SameFiles};
ghost use Rattle.pair_meaning.specs.LinkChoosing.{AreTaken};
ghost use Rattle.pair_runner.specs.Sending.{Breaks, Moves};
ghost use Rattle.pair_texts.specs.Start.{Texts};
ghost use Rattle.pair_running.specs.SpawnedPairOutcomeSeen.{IsHonestFor};
ghost use Rattle.pair_running.specs.SpawnedPairSupervised.{AreUntouched};
ghost use Rattle.privtrans_app.specs.Call.{HasTurned, IsCall, IsLeft, IsUntouched};
ghost use Rattle.privtrans_app.specs.Comes.{Comes, ComesAlone, ComesTo, Does};
ghost use Rattle.privtrans_app.specs.Ending.{Reports, status_of};
ghost use Rattle.privtrans_app.specs.EndingSeen.{ending_seen};
ghost use Rattle.privtrans_app.specs.Interleaving.{IsOfNoRun};
ghost use Rattle.privtrans_app.specs.Once.{CallFailsOnce, FailsOnce, ReadsFail};
ghost use Rattle.privtrans_app.specs.Outside.{Outside, SinkTold, folder_told, outside, sink_told};
ghost use Rattle.privtrans_app.specs.ProcessRun.{IsRun};
ghost use Rattle.privtrans_app.specs.SlaveRun.{IsWorkOver};
ghost use Rattle.privtrans_app.specs.Words.{Command as Asked, IsAsked, Says, files_of, uses_of};
ghost use Rattle.privtrans_app.specs.WordsSeen.{command_seen, plain_seen};

use crate::ending::{Ending, Report, reported, status};
use crate::help::{HELP, VERSION};
use crate::reading::read_all;
use crate::run::run;
use crate::showing::show;
use crate::slave::slave;
use crate::split::split;
use crate::words::{Command, Plain, command_of, names_of};
use crate::writing::{put, put_shown};
use honest_link::Witnessed;
use pt_base::{Chooser, Folder, Sink, SinkFault, Watch};
use std::alloc::Global;
use std::thread::Threads;

// Reads the files of a command, and writes what it shows.
fn shown<'a, R: Threads + Sync, F: Folder, K: Sink, C: Chooser, W: Watch>(
    rt: &R,
    alloc: Global,
    plain: &Plain<'a>,
    folder: &mut F,
    out: &mut K,
    chooser: &mut C,
    watch: &W,
) -> Ending<'a>
    requires { IsAsked (plain_seen plain.now) }
    ensures ending { (b a : Outside) → ComesAlone (out.new ≡ out.old) (plain_seen plain.now)
        (record b { folder = folder_told F.files F.read_faults F.failed_reads F.write_faults folder.old; out = sink_told K.taken K.faults out.old })
        (record a { folder = folder_told F.files F.read_faults F.failed_reads F.write_faults folder.new; out = sink_told K.taken K.faults out.new }) (ending_seen result) }
    ensures turns { (b a : Outside) → HasTurned (plain_seen plain.now)
        (record b { folder = folder_told F.files F.read_faults F.failed_reads F.write_faults folder.old; out = sink_told K.taken K.faults out.old; answers = C.answers chooser.old })
        (record a { folder = folder_told F.files F.read_faults F.failed_reads F.write_faults folder.new; out = sink_told K.taken K.faults out.new; answers = C.answers chooser.new }) (status_of (ending_seen result)) }
    ensures unasked { (uses_of (plain_seen plain.now)).chooser ≡ false → chooser.new ≡ chooser.old }
    ensures untaken { IsOfNoRun (status_of (ending_seen result)) → AreTaken [] (C.answers chooser.old) (C.answers chooser.new) }
    ensures unread { files_of (plain_seen plain.now) ≡ [] → folder.new ≡ folder.old }
    ensures same { SameFiles (F.files folder.old) (F.files folder.new) }
    ensures writes { F.write_faults folder.new ≡ F.write_faults folder.old }
    ensures later { (F.read_faults folder.old ≤ F.read_faults folder.new) × (K.faults out.old ≤ K.faults out.new) }
    ensures once { FailsOnce (F.read_faults folder.old + K.faults out.old) (F.read_faults folder.new + K.faults out.new) (status_of (ending_seen result)) }
    ensures failed { ReadsFail (F.failed_reads folder.old) (F.failed_reads folder.new) (status_of (ending_seen result)) }
{
    let Ok(names) = names_of(alloc, plain) else {
        return Ending::Memory;
    };
    let texts = match read_all(alloc, folder, names.as_slice()) {
        Ok(texts) => texts,
        Err(ending) => return ending,
    };
    match show(rt, alloc, plain, texts.as_slice(), chooser, watch) {
        Ok(shown) => put_shown(alloc, out, shown),
        Err(_) => Ending::Memory,
    }
}

// What a command comes to. Files are written by a split alone.
fn done<'a, R: Threads + Sync, F: Folder, K: Sink, S: Witnessed, C: Chooser, W: Watch>(
    rt: &R,
    alloc: Global,
    command: &Command<'a>,
    folder: &mut F,
    out: &mut K,
    spawner: &mut S,
    chooser: &mut C,
    watch: &W,
) -> Ending<'a>
    requires { IsAsked (command_seen command.now) }
    ensures ending { (report report' : SinkTold) → let b = outside (folder_told F.files F.read_faults F.failed_reads F.write_faults folder.old) (sink_told K.taken K.faults out.old) report (S.faults spawner.old) (C.answers chooser.old) in
        let a = outside (folder_told F.files F.read_faults F.failed_reads F.write_faults folder.new) (sink_told K.taken K.faults out.new) report' (S.faults spawner.new) (C.answers chooser.new) in
        ComesTo (Does (IsRun (AreUntouched spawner.old spawner.new out.old out.new)
        (Moves (Started S.starts S.came S.honest S.sent S.given) S.sent S.given K.taken spawner.old spawner.new out.old out.new)
        (Breaks S.sent S.given K.taken spawner.old spawner.new out.old out.new)
        (Appends (K.taken out.old) (K.taken out.new)) (λ t turns. IsHonestFor S.honest S.sent S.given t turns spawner.old))
        (IsWorkOver S.inherits S.came S.sent S.given spawner.old spawner.new)) (out.new ≡ out.old) (command_seen command.now) b a (ending_seen result) }
    ensures turns { (report report' : SinkTold) → let b = outside (folder_told F.files F.read_faults F.failed_reads F.write_faults folder.old) (sink_told K.taken K.faults out.old) report (S.faults spawner.old) (C.answers chooser.old) in
        let a = outside (folder_told F.files F.read_faults F.failed_reads F.write_faults folder.new) (sink_told K.taken K.faults out.new) report' (S.faults spawner.new) (C.answers chooser.new) in
        HasTurned (command_seen command.now) b a (status_of (ending_seen result)) }
    ensures untouched { (report report' : SinkTold) → let b = outside (folder_told F.files F.read_faults F.failed_reads F.write_faults folder.old) (sink_told K.taken K.faults out.old) report (S.faults spawner.old) (C.answers chooser.old) in
        let a = outside (folder_told F.files F.read_faults F.failed_reads F.write_faults folder.new) (sink_told K.taken K.faults out.new) report' (S.faults spawner.new) (C.answers chooser.new) in
        IsLeft (folder.new ≡ folder.old) (out.new ≡ out.old) (spawner.new ≡ spawner.old) (chooser.new ≡ chooser.old) (command_seen command.now) b a (status_of (ending_seen result)) }
    ensures later { (F.read_faults folder.old ≤ F.read_faults folder.new) × (F.write_faults folder.old ≤ F.write_faults folder.new) × (K.faults out.old ≤ K.faults out.new) × (S.faults spawner.old ≤ S.faults spawner.new) }
    ensures once { FailsOnce (F.read_faults folder.old + F.write_faults folder.old + K.faults out.old + S.faults spawner.old)
        (F.read_faults folder.new + F.write_faults folder.new + K.faults out.new + S.faults spawner.new) (status_of (ending_seen result)) }
    ensures failed { ReadsFail (F.failed_reads folder.old) (F.failed_reads folder.new) (status_of (ending_seen result)) }
{
    match command {
        Command::Help => put(alloc, out, HELP, Report::Nothing),
        Command::Version => put(alloc, out, VERSION, Report::Nothing),
        Command::Show(plain) => shown(rt, alloc, plain, folder, out, chooser, watch),
        Command::Run(words) => run(rt, alloc, words, folder, out, spawner, watch),
        Command::Split(words) => split(rt, alloc, words, folder, watch),
        Command::Slave => slave(alloc, spawner),
    }
}

// What the words come to.
fn ended<'a, R: Threads + Sync, F: Folder, K: Sink, S: Witnessed, C: Chooser, W: Watch>(
    rt: &R,
    alloc: Global,
    words: &'a [&'a str],
    folder: &mut F,
    out: &mut K,
    spawner: &mut S,
    chooser: &mut C,
    watch: &W,
) -> Ending<'a>
    ensures ending { (report report' : SinkTold) → let b = outside (folder_told F.files F.read_faults F.failed_reads F.write_faults folder.old) (sink_told K.taken K.faults out.old) report (S.faults spawner.old) (C.answers chooser.old) in
        let a = outside (folder_told F.files F.read_faults F.failed_reads F.write_faults folder.new) (sink_told K.taken K.faults out.new) report' (S.faults spawner.new) (C.answers chooser.new) in
        Comes (Does (IsRun (AreUntouched spawner.old spawner.new out.old out.new)
        (Moves (Started S.starts S.came S.honest S.sent S.given) S.sent S.given K.taken spawner.old spawner.new out.old out.new)
        (Breaks S.sent S.given K.taken spawner.old spawner.new out.old out.new)
        (Appends (K.taken out.old) (K.taken out.new)) (λ t turns. IsHonestFor S.honest S.sent S.given t turns spawner.old))
        (IsWorkOver S.inherits S.came S.sent S.given spawner.old spawner.new)) (out.new ≡ out.old) (map (λ w. w.now) words.now) b a (ending_seen result) }
    ensures turns { (report report' : SinkTold) → let b = outside (folder_told F.files F.read_faults F.failed_reads F.write_faults folder.old) (sink_told K.taken K.faults out.old) report (S.faults spawner.old) (C.answers chooser.old) in
        let a = outside (folder_told F.files F.read_faults F.failed_reads F.write_faults folder.new) (sink_told K.taken K.faults out.new) report' (S.faults spawner.new) (C.answers chooser.new) in
        (c : Asked) → Says (map (λ w. w.now) words.now) c → HasTurned c b a (status_of (ending_seen result)) }
    ensures untouched { (report report' : SinkTold) → let b = outside (folder_told F.files F.read_faults F.failed_reads F.write_faults folder.old) (sink_told K.taken K.faults out.old) report (S.faults spawner.old) (C.answers chooser.old) in
        let a = outside (folder_told F.files F.read_faults F.failed_reads F.write_faults folder.new) (sink_told K.taken K.faults out.new) report' (S.faults spawner.new) (C.answers chooser.new) in
        IsUntouched (folder.new ≡ folder.old) (out.new ≡ out.old) (spawner.new ≡ spawner.old) (chooser.new ≡ chooser.old) (map (λ w. w.now) words.now) b a (status_of (ending_seen result)) }
    ensures later { (F.read_faults folder.old ≤ F.read_faults folder.new) × (F.write_faults folder.old ≤ F.write_faults folder.new) × (K.faults out.old ≤ K.faults out.new) × (S.faults spawner.old ≤ S.faults spawner.new) }
    ensures once { FailsOnce (F.read_faults folder.old + F.write_faults folder.old + K.faults out.old + S.faults spawner.old)
        (F.read_faults folder.new + F.write_faults folder.new + K.faults out.new + S.faults spawner.new) (status_of (ending_seen result)) }
    ensures failed { ReadsFail (F.failed_reads folder.old) (F.failed_reads folder.new) (status_of (ending_seen result)) }
{
    match command_of(words) {
        Some(command) => done(rt, alloc, &command, folder, out, spawner, chooser, watch),
        None => Ending::Usage,
    }
}

// Reports an ending, and gives the status of the call.
fn tell<E: Sink>(alloc: Global, sink: &mut E, ending: Ending<'_>) -> u8
    ensures report { Reports (ending_seen ending.entry) (E.taken sink.old) (E.taken sink.new) (E.faults sink.old) (E.faults sink.new) result }
    ensures later { E.faults sink.old ≤ E.faults sink.new }
    ensures once { CallFailsOnce (E.faults sink.old) (E.faults sink.new) result }
{
    let status = status(&ending);
    let Ok(line) = reported(alloc, ending) else {
        return 12;
    };
    if line.is_empty() {
        return status;
    }
    match sink.write(alloc, &line) {
        Ok(()) => status,
        Err(SinkFault::Failed) => { if status == 12 { 12 } else { 4 } }
        Err(SinkFault::Memory) => 12,
    }
}

/// Does what the words ask for, and gives the status that the program ends with: 0 where it was
/// done, 1 where the words are of no form, 2 where a file is missing, 3 where one can't be read, 4
/// where out, the report or a half can't be written, 5 where the texts have faults, 6 where the run broke
/// off, 7 where the policy denied a call, 8 where its budget of turns was spent, 9 where the link to the
/// other process failed, 10 where that broke a rule, 11 where it ended too early, 12 for want of memory.
/// Lines in `report`, mostly one, say how it ended; help, the version and a slave that has ended have none.
/// A picture is drawn of texts with faults of flows, too.
/// Where both halves run in one process, the chooser says at each step which of them goes on, and where
/// several pairs do, at each turn which session goes on; where they
/// run in two, the spawner starts the slave's, and is the link to the other one in each. The watch is told of
/// each function that the front end works on, and changes nothing.
pub fn privtrans<
    R: Threads + Sync,
    F: Folder,
    K: Sink,
    E: Sink,
    S: Witnessed,
    C: Chooser,
    W: Watch,
>(
    rt: &R,
    alloc: Global,
    words: &[&str],
    folder: &mut F,
    out: &mut K,
    report: &mut E,
    spawner: &mut S,
    chooser: &mut C,
    watch: &W,
) -> u8
    // what the call comes to, by the words, the files and the outside: `b` is what that tells before the call, and `a` behind
    ensures call { let b = outside (folder_told F.files F.read_faults F.failed_reads F.write_faults folder.old) (sink_told K.taken K.faults out.old) (sink_told E.taken E.faults report.old) (S.faults spawner.old) (C.answers chooser.old) in
        let a = outside (folder_told F.files F.read_faults F.failed_reads F.write_faults folder.new) (sink_told K.taken K.faults out.new) (sink_told E.taken E.faults report.new) (S.faults spawner.new) (C.answers chooser.new) in
        let fair : Texts → ℕ → Type 0 = λ t turns. IsHonestFor S.honest S.sent S.given t turns spawner.old in
        IsCall (IsRun (AreUntouched spawner.old spawner.new out.old out.new)
        (Moves (Started S.starts S.came S.honest S.sent S.given) S.sent S.given K.taken spawner.old spawner.new out.old out.new)
        (Breaks S.sent S.given K.taken spawner.old spawner.new out.old out.new)
        (Appends (K.taken out.old) (K.taken out.new)) fair)
        (IsWorkOver S.inherits S.came S.sent S.given spawner.old spawner.new) fair (out.new ≡ out.old) (map (λ w. w.now) words.now) b a result }
    // what it doesn't use stays as it is
    ensures untouched { let b = outside (folder_told F.files F.read_faults F.failed_reads F.write_faults folder.old) (sink_told K.taken K.faults out.old) (sink_told E.taken E.faults report.old) (S.faults spawner.old) (C.answers chooser.old) in
        let a = outside (folder_told F.files F.read_faults F.failed_reads F.write_faults folder.new) (sink_told K.taken K.faults out.new) (sink_told E.taken E.faults report.new) (S.faults spawner.new) (C.answers chooser.new) in
        IsUntouched (folder.new ≡ folder.old) (out.new ≡ out.old) (spawner.new ≡ spawner.old) (chooser.new ≡ chooser.old) (map (λ w. w.now) words.now) b a result }
{
    let ending = ended(rt, alloc, words, folder, out, spawner, chooser, watch);
    tell(alloc, report, ending)
}
