// What a command shows of its texts, whatever the outside is.
ghost use Rattle.std.specs.Prelude.{◌≡◌, ◌≤◌, ◌&&◌, [], ◌∷◌, IfOk, length, nat_eq};
ghost use Rattle.auditing.specs.Audits.{IsAudit};
ghost use Rattle.explaining.specs.Explains.{IsHeld};
ghost use Rattle.flow_check.specs.Checked.{IsChecked};
ghost use Rattle.flow_picture.specs.Pictures.{IsPictured};
ghost use Rattle.flow_picture.specs.PicturedSeen.{view_pictured};
ghost use Rattle.front_end.specs.FaultLinesSeen.{faulty};
ghost use Rattle.original.specs.Original.{IsOriginal};
ghost use Rattle.outlining.specs.Outlines.{IsOutline};
ghost use Rattle.pair_explaining.specs.PairExplains.{IsPairHeld};
ghost use Rattle.pair_explaining.specs.PairSeen.{view_given, view_names};
ghost use Rattle.pair_explaining.specs.RefusalBlocks.{AreBlocks};
ghost use Rattle.pair_running.specs.GeneratedPairGenerated as made;
ghost use Rattle.pair_running.specs.LocalPairLocal.{IsPairRun};
ghost use Rattle.pair_running.specs.LocalPairWhole.{HasWhole};
ghost use Rattle.pair_texts.specs.Seen.{texts_with};
ghost use Rattle.refusal_lines.specs.Ends as ends;
ghost use Rattle.stages.specs.Climb as climb;
ghost use Rattle.privtrans_app.specs.EndingSeen.{report_status, shown_seen};
ghost use Rattle.privtrans_app.specs.Gives.{Gives, Shows, accepted, audited, by_lines, drawn, files_in, inputs_of, one_name, original_of, pair_of, program_in, ran_alone, ran_both, shared_of, text_at};
ghost use Rattle.privtrans_app.specs.Showing.{HasAsked, IsPairShown, IsServeShown, IsStopExplained, IsStopShown, MayBeExplained, TellsSessions, TellsTurns, Turned};
ghost use Rattle.privtrans_app.specs.Sessions.{ServesAll};
ghost use Rattle.privtrans_app.specs.Words as w;
ghost use Rattle.privtrans_app.specs.Words.{IsAsked, files_of};
ghost use Rattle.privtrans_app.specs.WordsSeen.{plain_seen};

use crate::ending::{Report, told_status};
use crate::reading::text_at;
use crate::several::{session_lines, session_texts};
use crate::words::{ExplainWords, GeneratedWords, LocalWords, OrigWords, Plain, ServeWords};
use flow_picture::Pictured;
use pair_explaining::{FileNames, explain_refusal, refusals_are_told};
use pair_running::local_pair::Ran;
use pair_running::served_pairs::Served;
use pair_running::{generated_pair, local_pair, served_pairs};
use pair_texts::Beside;
use pt_base::{Bytes, Chooser, End, Listed, Watch};
use refusal_lines::{flow_lines, refusal_lines};
use stages::{GivenTexts, Stop};
use std::alloc::{AllocError, Global};
use std::thread::Threads;

/// What a command shows: what it writes to out, and what it reports.
#[derive(Drop)]
pub(crate) struct Shown {
    pub out: Vec<u8>,
    pub report: Report,
}

impl Shown {
    /// Whether nothing is to be written: a stage has faults, and there is no picture of them.
    pub(crate) fn is_quiet(&self) -> bool
        ensures { result ≡ (nat_eq (report_status self.now.report) 5 && nat_eq (length self.now.out.items) 0) }
    {
        told_status(&self.report) == 5 && self.out.is_empty()
    }
}

// A stage has faults, which these lines report.
fn faults(alloc: Global, lines: Vec<u8>) -> Shown
    ensures { shown_seen result ≡ faulty lines.items }
{
    Shown {
        out: Vec::new(alloc),
        report: Report::Faults(lines),
    }
}

// Stages stop so: the lines of the refusal are reported.
fn refused(alloc: Global, stop: Stop) -> Result<Shown, AllocError>
    ensures { IfOk result (λ s. IsStopShown stop (shown_seen s)) }
{
    let Stop::Refused(refusal) = stop else {
        return Err(AllocError);
    };
    let lines = refusal_lines(alloc, refusal)?;
    Ok(faults(alloc, lines))
}

// The same, told by blocks of these files.
fn explained(
    alloc: Global,
    names: FileNames<'_>,
    given: GivenTexts<'_>,
    stop: Stop,
) -> Result<Shown, AllocError>
    requires { MayBeExplained stop }
    ensures { IfOk result (λ s. IsStopExplained (view_names names.entry) (view_given given.entry) stop (shown_seen s)) }
{
    let Stop::Refused(refusal) = stop else {
        return Err(AllocError);
    };
    let blocks = explain_refusal(alloc, names, given, &refusal)?;
    Ok(faults(alloc, blocks))
}

// No stage has a fault, and these bytes tell of the program.
fn clean(bytes: Vec<u8>) -> Shown
    ensures { shown_seen result ≡ accepted bytes.items }
{
    Shown {
        out: bytes,
        report: Report::Accepted,
    }
}

// A run wrote these bytes and ended so, of a program whose functions have these names.
fn ran(written: Vec<u8>, end: End, names: Listed<Bytes>) -> Shown
    ensures { shown_seen result ≡ ends.ran written.items names end }
{
    Shown {
        out: written,
        report: Report::Ended(end, names),
    }
}

// Whether the program breaks a rule, by the lines of its privileged variables or of its faults.
fn check<R: Threads + Sync, W: Watch>(
    rt: &R,
    alloc: Global,
    texts: &[Bytes],
    watch: &W,
) -> Result<Shown, AllocError>
    ensures { IfOk result (λ s. Shows (climb.flows ∷ []) by_lines IsChecked accepted (program_in texts.now) (shown_seen s)) }
{
    match flow_check::check(rt, alloc, text_at(texts, 0), watch) {
        Ok(lines) => Ok(clean(lines)),
        Err(stop) => refused(alloc, stop),
    }
}

// The same for people, of a program in a file of this name.
fn explain<R: Threads + Sync, W: Watch>(
    rt: &R,
    alloc: Global,
    name: &str,
    texts: &[Bytes],
    watch: &W,
) -> Result<Shown, AllocError>
    ensures { IfOk result (λ s. Gives (w.explain name.now) texts.now (shown_seen s)) }
{
    refusals_are_told();
    let program = text_at(texts, 0);
    match explaining::explain(rt, alloc, name.as_bytes(), program, watch) {
        Ok(lines) => Ok(clean(lines)),
        Err(stop) => {
            let names = FileNames {
                program: name.as_bytes(),
                host: &[],
                policy: &[],
            };
            let given = GivenTexts {
                program,
                host: &[],
                policy: &[],
            };
            explained(alloc, names, given, stop)
        }
    }
}

// The outline of the program.
fn outline<R: Threads + Sync, W: Watch>(
    rt: &R,
    alloc: Global,
    texts: &[Bytes],
    watch: &W,
) -> Result<Shown, AllocError>
    ensures { IfOk result (λ s. Shows (climb.flows ∷ []) by_lines IsOutline accepted (program_in texts.now) (shown_seen s)) }
{
    match outlining::outline(rt, alloc, text_at(texts, 0), watch) {
        Ok(outline) => Ok(clean(outline)),
        Err(stop) => refused(alloc, stop),
    }
}

// It is told by these lines which results that are given openly may depend on secrets.
fn verdicts(lines: Vec<u8>) -> Shown
    ensures { shown_seen result ≡ audited lines.items }
{
    Shown {
        out: lines,
        report: Report::Audited,
    }
}

// The results that are given openly, and whether they may depend on secrets.
fn audit<R: Threads + Sync, W: Watch>(
    rt: &R,
    alloc: Global,
    texts: &[Bytes],
    watch: &W,
) -> Result<Shown, AllocError>
    ensures { IfOk result (λ s. Shows (climb.flows ∷ []) by_lines IsAudit audited (program_in texts.now) (shown_seen s)) }
{
    match auditing::audit(rt, alloc, text_at(texts, 0), watch) {
        Ok(lines) => Ok(verdicts(lines)),
        Err(stop) => refused(alloc, stop),
    }
}

// A picture, with the lines of the faults that it shows.
fn drawing(alloc: Global, pictured: Pictured) -> Result<Shown, AllocError>
    ensures { IfOk result (λ s. shown_seen s ≡ drawn (view_pictured pictured)) }
{
    let Pictured { picture, faults } = pictured;
    if faults.as_slice().is_empty() {
        return Ok(clean(picture));
    }
    let lines = flow_lines(alloc, faults.as_slice())?;
    Ok(Shown {
        out: picture,
        report: Report::Faults(lines),
    })
}

// The picture of the program's flows, and of its faults.
fn picture<R: Threads + Sync, W: Watch>(
    rt: &R,
    alloc: Global,
    texts: &[Bytes],
    watch: &W,
) -> Result<Shown, AllocError>
    ensures { IfOk result (λ s. Shows [] by_lines IsPictured drawn (program_in texts.now) (shown_seen s)) }
{
    match flow_picture::picture(rt, alloc, text_at(texts, 0), watch) {
        Ok(pictured) => drawing(alloc, pictured),
        Err(stop) => refused(alloc, stop),
    }
}

// What is found in a pair, for people.
fn explain_pair<R: Threads + Sync, W: Watch>(
    rt: &R,
    alloc: Global,
    words: &ExplainWords<'_>,
    texts: &[Bytes],
    watch: &W,
) -> Result<Shown, AllocError>
    ensures { IfOk result (λ s. Gives (w.explain_pair words.now.program.now words.now.host.now words.now.policy.now) texts.now (shown_seen s)) }
{
    refusals_are_told();
    let names = FileNames {
        program: words.program.as_bytes(),
        host: words.host.as_bytes(),
        policy: words.policy.as_bytes(),
    };
    let given = GivenTexts {
        program: text_at(texts, 0),
        host: text_at(texts, 1),
        policy: text_at(texts, 2),
    };
    match pair_explaining::explain_pair(rt, alloc, names.program, given, watch) {
        Ok(lines) => Ok(clean(lines)),
        Err(stop) => explained(alloc, names, given, stop),
    }
}

// The run of the program as it was written. No policy is asked, so none ends it, and no function has to be told.
fn orig<R: Threads + Sync, W: Watch>(
    rt: &R,
    alloc: Global,
    words: &OrigWords<'_>,
    texts: &[Bytes],
    watch: &W,
) -> Result<Shown, AllocError>
    ensures { IfOk result (λ s. Shows (climb.hosts ∷ climb.inputs ∷ []) by_lines (IsOriginal words.now.turns) ran_alone (original_of texts.now) (shown_seen s)) }
{
    let program = text_at(texts, 0);
    let host = text_at(texts, 1);
    let input = text_at(texts, 2);
    match original::run(rt, alloc, program, host, input, words.turns, watch) {
        Ok(original::Ran { written, end }) => Ok(ran(written, end, Listed::new(Vec::new(alloc)))),
        Err(stop) => refused(alloc, stop),
    }
}

/// What stands beside the program in the texts of a pair, with so many turns.
pub(crate) fn texts_beside(texts: &[Bytes], turns: u32) -> Beside<'_>
    ensures texts { texts_with (text_at texts.now 0) result ≡ pair_of texts.now }
    ensures turns { result.turns ≡ turns }
{
    Beside {
        host: text_at(texts, 1),
        policy: text_at(texts, 2),
        input: text_at(texts, 3),
        turns,
    }
}

// What a pair came to whose halves ran in one process.
fn pair_shown(alloc: Global, answer: Result<Ran, Stop>) -> Result<Shown, AllocError>
    ensures { IfOk result (λ s. IsPairShown answer (shown_seen s)) }
{
    match answer {
        Ok(
            Ran {
                written,
                end,
                names,
            },
        ) => Ok(ran(written, end, names)),
        Err(stop) => refused(alloc, stop),
    }
}

// The run of both halves in one process. The chooser says at each step which of them goes on.
fn local<R: Threads + Sync, C: Chooser, W: Watch>(
    rt: &R,
    alloc: Global,
    words: &LocalWords<'_>,
    texts: &[Bytes],
    chooser: &mut C,
    watch: &W,
) -> Result<Shown, AllocError>
    requires window { 1 ≤ words.now.window }
    ensures gives { IfOk result (λ s. Shows climb.of_pair by_lines (IsPairRun words.now.turns) ran_both (pair_of texts.now) (shown_seen s)) }
    ensures turns { IfOk result (λ s. Turned (HasWhole (pair_of texts.now) words.now.turns words.now.window (C.answers chooser.old) (C.answers chooser.new) s.out.items)
        (C.answers chooser.old) (C.answers chooser.new) (report_status s.report)) }
{
    let beside = texts_beside(texts, words.turns);
    let program = text_at(texts, 0);
    let answer = local_pair::run(rt, alloc, program, beside, words.window, chooser, watch);
    pair_shown(alloc, answer)
}

// The run of both halves of a generated program.
fn generated<R: Threads + Sync, C: Chooser, W: Watch>(
    rt: &R,
    alloc: Global,
    words: &GeneratedWords,
    chooser: &mut C,
    watch: &W,
) -> Result<Shown, AllocError>
    ensures gives { IfOk result (λ s. Gives (w.gen words.now.seed words.now.count) [] (shown_seen s)) }
    ensures turns { IfOk result (λ s. Turned (TellsTurns words.now.seed words.now.count (C.answers chooser.old) (C.answers chooser.new) s.out.items)
        (C.answers chooser.old) (C.answers chooser.new) (report_status s.report)) }
{
    let answer = generated_pair::run(rt, alloc, words.seed, words.count, chooser, watch);
    pair_shown(alloc, answer)
}

// What several pairs came to.
fn sessions_shown(alloc: Global, answer: Result<Served, Stop>) -> Result<Shown, AllocError>
    ensures { IfOk result (λ s. IsServeShown answer (shown_seen s)) }
{
    match answer {
        Ok(Served { sessions, names }) => Ok(Shown {
            out: session_texts(alloc, sessions.as_slice())?,
            report: Report::Served(session_lines(alloc, names.as_slice(), sessions.as_slice())?),
        }),
        Err(stop) => refused(alloc, stop),
    }
}

// The runs of both halves with several inputs, by turns over one monitor. The chooser says at each turn which session
// goes on.
fn served<R: Threads + Sync, C: Chooser, W: Watch>(
    rt: &R,
    alloc: Global,
    words: &ServeWords<'_>,
    texts: &[Bytes],
    chooser: &mut C,
    watch: &W,
) -> Result<Shown, AllocError>
    requires some { 4 ≤ length texts.now }
    requires few { length texts.now ≤ 19 }
    ensures gives { IfOk result (λ s. ServesAll (shared_of texts.now) (inputs_of texts.now) words.now.turns (shown_seen s)) }
    ensures turns { IfOk result (λ s. Turned (TellsSessions (shared_of texts.now) (inputs_of texts.now) words.now.turns (C.answers chooser.old) (C.answers chooser.new) s.out.items)
        (C.answers chooser.old) (C.answers chooser.new) (report_status s.report)) }
{
    let given = GivenTexts {
        program: text_at(texts, 0),
        host: text_at(texts, 1),
        policy: text_at(texts, 2),
    };
    let answer = served_pairs::run(rt, alloc, given, &texts[3..], words.turns, chooser, watch);
    sessions_shown(alloc, answer)
}

/// What a command shows whose files have these texts. The chooser is asked where both halves of a program run, and the watch
/// is told of each function that the front end works on.
///
/// # Errors
///
/// Want of memory.
pub(crate) fn show<R: Threads + Sync, C: Chooser, W: Watch>(
    rt: &R,
    alloc: Global,
    plain: &Plain<'_>,
    texts: &[Bytes],
    chooser: &mut C,
    watch: &W,
) -> Result<Shown, AllocError>
    requires asked { IsAsked (plain_seen plain.now) }
    requires read { length texts.now ≡ length (files_of (plain_seen plain.now)) }
    ensures gives { IfOk result (λ s. Gives (plain_seen plain.now) texts.now (shown_seen s)) }
    ensures turns { HasAsked (chooser.new ≡ chooser.old) (plain_seen plain.now) texts.now (C.answers chooser.old) (C.answers chooser.new) result }
{
    match plain {
        Plain::Check { program: _ } => check(rt, alloc, texts, watch),
        Plain::Explain { program } => explain(rt, alloc, program, texts, watch),
        Plain::Outline { program: _ } => outline(rt, alloc, texts, watch),
        Plain::Picture { program: _ } => picture(rt, alloc, texts, watch),
        Plain::ExplainPair(words) => explain_pair(rt, alloc, words, texts, watch),
        Plain::Orig(words) => orig(rt, alloc, words, texts, watch),
        Plain::Local(words) => local(rt, alloc, words, texts, chooser, watch),
        Plain::Gen(words) => generated(rt, alloc, words, chooser, watch),
        Plain::Serve(words) => served(rt, alloc, words, texts, chooser, watch),
        Plain::Audit { program: _ } => audit(rt, alloc, texts, watch),
    }
}
