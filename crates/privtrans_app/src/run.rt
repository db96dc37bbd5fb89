// Both halves in two processes: the files are read, the slave of their pair is started as a process of its own,
// and what the pair's hosts write goes to out as it comes.
ghost use Rattle.std.specs.Prelude.{◌≡◌, ◌≤◌, ◌+◌, ℕ, List};
ghost use Rattle.std.specs.Io.KnownBytes.{Appends};
ghost use Rattle.honest_link.specs.Came.{Started};
ghost use Rattle.pair_runner.specs.Sending.{Breaks, Moves};
ghost use Rattle.pair_running.specs.SpawnedPairOutcomeSeen.{IsHonestFor};
ghost use Rattle.pair_running.specs.SpawnedPairSupervised.{AreUntouched};
ghost use Rattle.pt_base.specs.Files.{SameFiles};
ghost use Rattle.privtrans_app.specs.Comes.{ComesTo};
ghost use Rattle.privtrans_app.specs.Ending.{status_of};
ghost use Rattle.privtrans_app.specs.EndingSeen.{ending_seen};
ghost use Rattle.privtrans_app.specs.Interleaving.{IsOfNoRun};
ghost use Rattle.privtrans_app.specs.Once.{FailsOnce, ReadsFail};
ghost use Rattle.privtrans_app.specs.Outside.{Outside, folder_told, sink_told};
ghost use Rattle.privtrans_app.specs.ProcessRun.{EndsSo, IsRun, Serves};
ghost use Rattle.privtrans_app.specs.WordsSeen.{run_seen};

use crate::ending::{Ending, Report, stopped};
use crate::reading::{read_all, text_at};
use crate::showing::texts_beside;
use crate::words::RunWords;
use honest_link::Witnessed;
use pair_runner::RunFault;
use pair_running::spawned_pair::{self, Outcome};
use pt_base::{Folder, Sink, Watch};
use stages::Stop;
use std::alloc::Global;
use std::thread::Threads;

// How what the texts come to ends the call.
fn ending_by<'a>(alloc: Global, answer: Result<Outcome, RunFault>) -> Ending<'a>
    ensures { EndsSo answer (ending_seen result) }
{
    match answer {
        Ok(Outcome::Refused(refusal)) => stopped(alloc, Stop::Refused(refusal)),
        Ok(Outcome::Ran { end, names }) => Ending::Told(Report::Ended(end, names)),
        Err(RunFault::LinkFailed) => Ending::LinkFault,
        Err(RunFault::SinkFailed) => Ending::WriteFault,
        Err(RunFault::BadPeer { rule, offset }) => Ending::BadPeer { rule, offset },
        Err(RunFault::PeerEnded) => Ending::PeerEnded,
        Err(RunFault::Memory) => Ending::Memory,
    }
}

/// Runs the pair of the files that the words name, with the slave as the peer that the spawner starts. The watch
/// is told of each function that has a body, as the front end works on it.
pub(crate) fn run<'a, R: Threads + Sync, F: Folder, K: Sink, S: Witnessed, W: Watch>(
    rt: &R,
    alloc: Global,
    words: &RunWords<'a>,
    folder: &mut F,
    out: &mut K,
    spawner: &mut S,
    watch: &W,
) -> Ending<'a>
    ensures ending { (b a : Outside) → ComesTo
        (Serves (IsRun (AreUntouched spawner.old spawner.new out.old out.new)
        (Moves (Started S.starts S.came S.honest S.sent S.given) S.sent S.given K.taken spawner.old spawner.new out.old out.new)
        (Breaks S.sent S.given K.taken spawner.old spawner.new out.old out.new)
        (Appends (K.taken out.old) (K.taken out.new)) (λ t turns. IsHonestFor S.honest S.sent S.given t turns spawner.old)))
        (out.new ≡ out.old) (run_seen words.now)
        (record b { folder = folder_told F.files F.read_faults F.failed_reads F.write_faults folder.old; out = sink_told K.taken K.faults out.old; links = S.faults spawner.old })
        (record a { folder = folder_told F.files F.read_faults F.failed_reads F.write_faults folder.new; out = sink_told K.taken K.faults out.new; links = S.faults spawner.new })
        (ending_seen result) }
    ensures unreached { IsOfNoRun (status_of (ending_seen result)) → spawner.new ≡ spawner.old }
    ensures same { SameFiles (F.files folder.old) (F.files folder.new) }
    ensures writes { F.write_faults folder.new ≡ F.write_faults folder.old }
    ensures later { (F.read_faults folder.old ≤ F.read_faults folder.new) × (K.faults out.old ≤ K.faults out.new) × (S.faults spawner.old ≤ S.faults spawner.new) }
    ensures once { FailsOnce (F.read_faults folder.old + K.faults out.old + S.faults spawner.old) (F.read_faults folder.new + K.faults out.new + S.faults spawner.new) (status_of (ending_seen result)) }
    ensures failed { ReadsFail (F.failed_reads folder.old) (F.failed_reads folder.new) (status_of (ending_seen result)) }
{
    let names = words.names;
    let names = [names.program, names.host, names.policy, names.input];
    let texts = match read_all(alloc, folder, &names) {
        Ok(texts) => texts,
        Err(ending) => return ending,
    };
    let texts = texts.as_slice();
    let beside = texts_beside(texts, words.turns);
    let answer = spawned_pair::run(rt, alloc, text_at(texts, 0), beside, spawner, out, watch);
    ending_by(alloc, answer)
}
