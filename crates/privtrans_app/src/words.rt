// The words of a call, read by hand.
ghost use Rattle.std.specs.Prelude.{◌≡◌, ◌≤◌, ◌≢◌, ◌∷◌, [], ℕ, IfOk, MatchOption, IsTrue, false, map, codes};
ghost use Rattle.std.specs.Fmt.{decimal};
ghost use Rattle.privtrans_app.specs.Forms.{AreNotGenerated, AreNotLocal, AreNotOne, AreNotOrig, AreNotRun, AreNotServe, AreNotSplit, ExplainNothing, IsNoWord};
ghost use Rattle.privtrans_app.specs.Words.{IsUsage, Says, files_of};
ghost use Rattle.privtrans_app.specs.WordsSeen.{command_seen, plain_seen};

use itoa::Buffer;
use std::alloc::{AllocError, Global};

/// So many inputs are served at most.
const MOST_INPUTS: usize = 16;

/// The names of a pair's files.
#[derive(Clone, Copy)]
pub(crate) struct PairNames<'a> {
    pub program: &'a str,
    pub host: &'a str,
    pub policy: &'a str,
    pub input: &'a str,
}

/// The words of a run of both halves in one process.
#[derive(Clone, Copy)]
pub(crate) struct LocalWords<'a> {
    pub names: PairNames<'a>,
    pub turns: u32,
    pub window: u32,
}

/// The words of a run of both halves in two processes.
#[derive(Clone, Copy)]
pub(crate) struct RunWords<'a> {
    pub names: PairNames<'a>,
    pub turns: u32,
}

/// The words of a run of the original.
#[derive(Clone, Copy)]
pub(crate) struct OrigWords<'a> {
    pub program: &'a str,
    pub host: &'a str,
    pub input: &'a str,
    pub turns: u32,
}

/// The words of a split: the names of the program and of the files that its halves go to.
#[derive(Clone, Copy)]
pub(crate) struct SplitWords<'a> {
    pub program: &'a str,
    pub slave: &'a str,
    pub monitor: &'a str,
}

/// The words of a pair that is explained.
#[derive(Clone, Copy)]
pub(crate) struct ExplainWords<'a> {
    pub program: &'a str,
    pub host: &'a str,
    pub policy: &'a str,
}

/// The words of a generated program.
#[derive(Clone, Copy)]
pub(crate) struct GeneratedWords {
    pub seed: u32,
    pub count: u32,
}

/// The words of several pairs that run by turns over one monitor.
#[derive(Clone, Copy)]
pub(crate) struct ServeWords<'a> {
    pub program: &'a str,
    pub host: &'a str,
    pub policy: &'a str,
    pub turns: u32,
    /// The names of their inputs, 1 to 16.
    pub inputs: &'a [&'a str],
}

/// A command that shows what comes of its files' texts alone: it writes no file and reaches no other process.
#[derive(Clone, Copy)]
pub(crate) enum Plain<'a> {
    Check { program: &'a str },
    Explain { program: &'a str },
    Outline { program: &'a str },
    Picture { program: &'a str },
    ExplainPair(ExplainWords<'a>),
    Orig(OrigWords<'a>),
    Local(LocalWords<'a>),
    Gen(GeneratedWords),
    Serve(ServeWords<'a>),
    Audit { program: &'a str },
}

/// What the words ask for.
#[derive(Clone, Copy)]
pub(crate) enum Command<'a> {
    Help,
    Version,
    Show(Plain<'a>),
    Run(RunWords<'a>),
    Split(SplitWords<'a>),
    Slave,
}

/// The names of the files that a command reads, in this order.
pub(crate) fn names_of<'a>(alloc: Global, plain: &Plain<'a>) -> Result<Vec<&'a str>, AllocError>
    ensures { IfOk result (λ v. map (λ n. n.now) v.items ≡ files_of (plain_seen plain.now)) }
{
    match *plain {
        Plain::Check { program }
        | Plain::Explain { program }
        | Plain::Outline { program }
        | Plain::Picture { program }
        | Plain::Audit { program } => Vec::from_slice(alloc, &[program]),
        Plain::ExplainPair(words) => {
            Vec::from_slice(alloc, &[words.program, words.host, words.policy])
        }
        Plain::Orig(words) => Vec::from_slice(alloc, &[words.program, words.host, words.input]),
        Plain::Local(words) => {
            let names = words.names;
            Vec::from_slice(
                alloc,
                &[names.program, names.host, names.policy, names.input],
            )
        }
        Plain::Gen(_) => Ok(Vec::new(alloc)),
        Plain::Serve(words) => served_names(alloc, words),
    }
}

// The names of the files of several pairs: the texts that they share, and their inputs.
fn served_names<'a>(alloc: Global, words: ServeWords<'a>) -> Result<Vec<&'a str>, AllocError>
    ensures { IfOk result (λ v. map (λ n. n.now) v.items ≡ words.entry.program.now ∷ words.entry.host.now ∷ words.entry.policy.now ∷ map (λ n. n.now) words.entry.inputs.now) }
{
    let mut names = Vec::from_slice(alloc, &[words.program, words.host, words.policy])?;
    names.extend_from_slice(words.inputs)?;
    Ok(names)
}

// The number of a word in digits without a leading zero, if it is at most `most`.
fn number(word: &str, most: u32) -> Option<u32>
    ensures { MatchOption result ((n : ℕ) → n ≤ most → word.now ≢ decimal n) (λ n. (n ≤ most) × (word.now ≡ decimal n)) }
{
    let Ok(n) = u32::from_str_radix(word, 10) else {
        return None;
    };
    if n > most {
        return None;
    }
    if is_spelling(n, word) { Some(n) } else { None }
}

// Whether the word is the number in digits without a leading zero.
fn is_spelling(n: u32, word: &str) -> bool
    ensures yes { IsTrue result → word.now ≡ decimal n }
    ensures no { result ≡ false → word.now ≢ decimal n }
{
    let mut buffer = Buffer::new();
    buffer.format(n) == word
}

/// What the words ask for; none where they ask for nothing.
pub(crate) fn command_of<'a>(words: &'a [&'a str]) -> Option<Command<'a>>
    ensures { MatchOption result (IsUsage (map (λ w. w.now) words.now)) (λ c. Says (map (λ w. w.now) words.now) (command_seen c)) }
{
    match words {
        [] => None,
        [word, rest @ ..] => command_after(word, rest),
    }
}

// What a word and those after it ask for.
fn command_after<'a>(word: &str, rest: &'a [&'a str]) -> Option<Command<'a>>
    ensures { MatchOption result (IsUsage (word.now ∷ map (λ w. w.now) rest.now)) (λ c. Says (word.now ∷ map (λ w. w.now) rest.now) (command_seen c)) }
{
    if rest.is_empty() {
        one_word(word)
    } else if word == "run" {
        run_words(rest)
    } else if word == "local" {
        local_words(rest)
    } else if word == "orig" {
        orig_words(rest)
    } else if word == "check" {
        check_words(rest)
    } else if word == "explain" {
        explain_words(rest)
    } else if word == "outline" {
        outline_words(rest)
    } else if word == "picture" {
        picture_words(rest)
    } else if word == "split" {
        split_words(rest)
    } else if word == "gen" {
        generated_words(rest)
    } else if word == "serve" {
        serve_words(rest)
    } else if word == "audit" {
        audit_words(rest)
    } else {
        None
    }
}

// What one word asks for.
fn one_word<'a>(word: &str) -> Option<Command<'a>>
    ensures { MatchOption result (IsNoWord word.now) (λ c. Says (word.now ∷ []) (command_seen c)) }
{
    if word == "--help" || word == "-h" {
        Some(Command::Help)
    } else if word == "--version" {
        Some(Command::Version)
    } else if word == "slave" {
        Some(Command::Slave)
    } else {
        None
    }
}

// The one name that these words are.
fn one_name<'a>(words: &[&'a str]) -> Option<&'a str>
    ensures { MatchOption result (AreNotOne (map (λ w. w.now) words.now)) (λ name. map (λ w. w.now) words.now ≡ name.now ∷ []) }
{
    let [name, words @ ..] = words else {
        return None;
    };
    if words.is_empty() { Some(*name) } else { None }
}

// The words after `check`.
fn check_words<'a>(words: &[&'a str]) -> Option<Command<'a>>
    ensures { MatchOption result (AreNotOne (map (λ w. w.now) words.now)) (λ c. Says (codes "check" ∷ map (λ w. w.now) words.now) (command_seen c)) }
{
    let program = one_name(words)?;
    Some(Command::Show(Plain::Check { program }))
}

// The words after `outline`.
fn outline_words<'a>(words: &[&'a str]) -> Option<Command<'a>>
    ensures { MatchOption result (AreNotOne (map (λ w. w.now) words.now)) (λ c. Says (codes "outline" ∷ map (λ w. w.now) words.now) (command_seen c)) }
{
    let program = one_name(words)?;
    Some(Command::Show(Plain::Outline { program }))
}

// The words after `picture`.
fn picture_words<'a>(words: &[&'a str]) -> Option<Command<'a>>
    ensures { MatchOption result (AreNotOne (map (λ w. w.now) words.now)) (λ c. Says (codes "picture" ∷ map (λ w. w.now) words.now) (command_seen c)) }
{
    let program = one_name(words)?;
    Some(Command::Show(Plain::Picture { program }))
}

// The words after `explain`: the name of a program alone, or of a pair's files too.
fn explain_words<'a>(words: &[&'a str]) -> Option<Command<'a>>
    ensures { MatchOption result (ExplainNothing (map (λ w. w.now) words.now)) (λ c. Says (codes "explain" ∷ map (λ w. w.now) words.now) (command_seen c)) }
{
    let [program, words @ ..] = words else {
        return None;
    };
    let [host, words @ ..] = words else {
        return Some(Command::Show(Plain::Explain { program }));
    };
    let [policy, words @ ..] = words else {
        return None;
    };
    if words.is_empty() {
        Some(Command::Show(Plain::ExplainPair(ExplainWords {
            program,
            host,
            policy,
        })))
    } else {
        None
    }
}

// The words after `orig`.
fn orig_words<'a>(words: &[&'a str]) -> Option<Command<'a>>
    ensures { MatchOption result (AreNotOrig (codes "orig" ∷ map (λ w. w.now) words.now)) (λ c. Says (codes "orig" ∷ map (λ w. w.now) words.now) (command_seen c)) }
{
    let [program, words @ ..] = words else {
        return None;
    };
    let [host, words @ ..] = words else {
        return None;
    };
    let [input, words @ ..] = words else {
        return None;
    };
    let [turns, words @ ..] = words else {
        return None;
    };
    if words.is_empty() {
        orig_form(program, host, input, turns)
    } else {
        None
    }
}

fn orig_form<'a>(
    program: &'a str,
    host: &'a str,
    input: &'a str,
    turns: &str,
) -> Option<Command<'a>>
    ensures { MatchOption result
        (AreNotOrig (codes "orig" ∷ program.now ∷ host.now ∷ input.now ∷ turns.now ∷ []))
        (λ c. Says (codes "orig" ∷ program.now ∷ host.now ∷ input.now ∷ turns.now ∷ []) (command_seen c)) }
{
    let turns = number(turns, u32::MAX)?;
    Some(Command::Show(Plain::Orig(OrigWords {
        program,
        host,
        input,
        turns,
    })))
}

// The words after `local`.
fn local_words<'a>(words: &[&'a str]) -> Option<Command<'a>>
    ensures { MatchOption result (AreNotLocal (codes "local" ∷ map (λ w. w.now) words.now)) (λ c. Says (codes "local" ∷ map (λ w. w.now) words.now) (command_seen c)) }
{
    let [program, words @ ..] = words else {
        return None;
    };
    let [host, words @ ..] = words else {
        return None;
    };
    let [policy, words @ ..] = words else {
        return None;
    };
    let [input, words @ ..] = words else {
        return None;
    };
    let [turns, words @ ..] = words else {
        return None;
    };
    let [window, words @ ..] = words else {
        return None;
    };
    if words.is_empty() {
        local_form(program, host, policy, input, turns, window)
    } else {
        None
    }
}

fn local_form<'a>(
    program: &'a str,
    host: &'a str,
    policy: &'a str,
    input: &'a str,
    turns: &str,
    window: &str,
) -> Option<Command<'a>>
    ensures { MatchOption result
        (AreNotLocal (codes "local" ∷ program.now ∷ host.now ∷ policy.now ∷ input.now ∷ turns.now ∷ window.now ∷ []))
        (λ c. Says (codes "local" ∷ program.now ∷ host.now ∷ policy.now ∷ input.now ∷ turns.now ∷ window.now ∷ []) (command_seen c)) }
{
    let turns = number(turns, u32::MAX)?;
    let window = number(window, 1024)?;
    if window == 0 {
        return None;
    }
    let names = PairNames {
        program,
        host,
        policy,
        input,
    };
    Some(Command::Show(Plain::Local(LocalWords {
        names,
        turns,
        window,
    })))
}

// The words after `run`.
fn run_words<'a>(words: &[&'a str]) -> Option<Command<'a>>
    ensures { MatchOption result (AreNotRun (codes "run" ∷ map (λ w. w.now) words.now)) (λ c. Says (codes "run" ∷ map (λ w. w.now) words.now) (command_seen c)) }
{
    let [program, words @ ..] = words else {
        return None;
    };
    let [host, words @ ..] = words else {
        return None;
    };
    let [policy, words @ ..] = words else {
        return None;
    };
    let [input, words @ ..] = words else {
        return None;
    };
    let [turns, words @ ..] = words else {
        return None;
    };
    if words.is_empty() {
        run_form(program, host, policy, input, turns)
    } else {
        None
    }
}

fn run_form<'a>(
    program: &'a str,
    host: &'a str,
    policy: &'a str,
    input: &'a str,
    turns: &str,
) -> Option<Command<'a>>
    ensures { MatchOption result
        (AreNotRun (codes "run" ∷ program.now ∷ host.now ∷ policy.now ∷ input.now ∷ turns.now ∷ []))
        (λ c. Says (codes "run" ∷ program.now ∷ host.now ∷ policy.now ∷ input.now ∷ turns.now ∷ []) (command_seen c)) }
{
    let turns = number(turns, u32::MAX)?;
    let names = PairNames {
        program,
        host,
        policy,
        input,
    };
    Some(Command::Run(RunWords { names, turns }))
}

// The words after `split`.
fn split_words<'a>(words: &[&'a str]) -> Option<Command<'a>>
    ensures { MatchOption result (AreNotSplit (codes "split" ∷ map (λ w. w.now) words.now)) (λ c. Says (codes "split" ∷ map (λ w. w.now) words.now) (command_seen c)) }
{
    let [program, words @ ..] = words else {
        return None;
    };
    let [slave, words @ ..] = words else {
        return None;
    };
    let [monitor, words @ ..] = words else {
        return None;
    };
    if words.is_empty() {
        apart(program, slave, monitor)
    } else {
        None
    }
}

// The names of a split, where no two are equal.
fn apart<'a>(program: &'a str, slave: &'a str, monitor: &'a str) -> Option<Command<'a>>
    ensures { MatchOption result
        (AreNotSplit (codes "split" ∷ program.now ∷ slave.now ∷ monitor.now ∷ []))
        (λ c. Says (codes "split" ∷ program.now ∷ slave.now ∷ monitor.now ∷ []) (command_seen c)) }
{
    if program == slave || program == monitor || slave == monitor {
        None
    } else {
        Some(Command::Split(SplitWords {
            program,
            slave,
            monitor,
        }))
    }
}

// The words after `gen`.
fn generated_words<'a>(words: &[&'a str]) -> Option<Command<'a>>
    ensures { MatchOption result (AreNotGenerated (codes "gen" ∷ map (λ w. w.now) words.now)) (λ c. Says (codes "gen" ∷ map (λ w. w.now) words.now) (command_seen c)) }
{
    let [seed, words @ ..] = words else {
        return None;
    };
    let [count, words @ ..] = words else {
        return None;
    };
    if words.is_empty() {
        generated_form(seed, count)
    } else {
        None
    }
}

fn generated_form<'a>(seed: &str, count: &str) -> Option<Command<'a>>
    ensures { MatchOption result
        (AreNotGenerated (codes "gen" ∷ seed.now ∷ count.now ∷ []))
        (λ c. Says (codes "gen" ∷ seed.now ∷ count.now ∷ []) (command_seen c)) }
{
    let seed = number(seed, 2147483647)?;
    let count = number(count, 2000)?;
    if count == 0 {
        return None;
    }
    Some(Command::Show(Plain::Gen(GeneratedWords { seed, count })))
}

// The words after `serve`.
fn serve_words<'a>(words: &'a [&'a str]) -> Option<Command<'a>>
    ensures { MatchOption result (AreNotServe (codes "serve" ∷ map (λ w. w.now) words.now)) (λ c. Says (codes "serve" ∷ map (λ w. w.now) words.now) (command_seen c)) }
{
    let [program, words @ ..] = words else {
        return None;
    };
    let [host, words @ ..] = words else {
        return None;
    };
    let [policy, words @ ..] = words else {
        return None;
    };
    let [turns, inputs @ ..] = words else {
        return None;
    };
    serve_form(program, host, policy, turns, inputs)
}

fn serve_form<'a>(
    program: &'a str,
    host: &'a str,
    policy: &'a str,
    turns: &str,
    inputs: &'a [&'a str],
) -> Option<Command<'a>>
    ensures { MatchOption result
        (AreNotServe (codes "serve" ∷ program.now ∷ host.now ∷ policy.now ∷ turns.now ∷ map (λ w. w.now) inputs.now))
        (λ c. Says (codes "serve" ∷ program.now ∷ host.now ∷ policy.now ∷ turns.now ∷ map (λ w. w.now) inputs.now) (command_seen c)) }
{
    let turns = number(turns, u32::MAX)?;
    if inputs.is_empty() || inputs.len() > MOST_INPUTS {
        return None;
    }
    Some(Command::Show(Plain::Serve(ServeWords {
        program,
        host,
        policy,
        turns,
        inputs,
    })))
}

// The words after `audit`.
fn audit_words<'a>(words: &[&'a str]) -> Option<Command<'a>>
    ensures { MatchOption result (AreNotOne (map (λ w. w.now) words.now)) (λ c. Says (codes "audit" ∷ map (λ w. w.now) words.now) (command_seen c)) }
{
    let program = one_name(words)?;
    Some(Command::Show(Plain::Audit { program }))
}
