// What a call comes to, its status and its report.
ghost use Rattle.std.specs.Prelude.{◌≡◌, ◌++◌, IfOk, codes};
ghost use Rattle.std.specs.Fmt.{decimal};
ghost use Rattle.privtrans_app.specs.Ending.{status_of, report_of};
ghost use Rattle.privtrans_app.specs.EndingSeen.{IsStopped, ending_seen, report_bytes, report_status};

use itoa::Buffer;
use pt_base::{Bytes, End, Listed};
use refusal_lines::{end_line, end_status, refusal_lines};
use stages::Stop;
use std::alloc::{AllocError, Global};

/// What is reported of what was done.
#[derive(Drop)]
pub(crate) enum Report {
    /// Nothing.
    Nothing,
    /// The program breaks no rule.
    Accepted,
    /// The halves of the program are written.
    Split,
    /// A stage has faults: the lines that report them.
    Faults(Vec<u8>),
    /// A run came to its end, of a program whose functions have these names, by their numbers.
    Ended(End, Listed<Bytes>),
    /// Several sessions came to their ends: the lines that report them.
    Served(Vec<u8>),
    /// It is told of each result that is given openly whether it may depend on secrets.
    Audited,
}

/// What a call comes to.
#[derive(Drop)]
pub(crate) enum Ending<'a> {
    /// What was asked for was done.
    Told(Report),
    /// The words ask for nothing.
    Usage,
    /// No file of this name is held.
    Missing(&'a str),
    /// The file of this name can't be read.
    ReadFault(&'a str),
    /// Out or a half can't be written.
    WriteFault,
    /// The link to the other process failed.
    LinkFault,
    /// The other process broke a rule, with the frame at this place of what it gave.
    BadPeer { rule: u8, offset: u64 },
    /// The other process ended before the run did.
    PeerEnded,
    Memory,
}

/// The status that goes with a report.
pub(crate) fn told_status(report: &Report) -> u8
    ensures { result ≡ report_status report.now }
{
    match report {
        Report::Nothing => 0,
        Report::Accepted => 0,
        Report::Split => 0,
        Report::Faults(_) => 5,
        Report::Ended(end, _) => end_status(end),
        Report::Served(_) => 0,
        Report::Audited => 0,
    }
}

/// The status that a call ends with.
pub(crate) fn status(ending: &Ending<'_>) -> u8
    ensures { result ≡ status_of (ending_seen ending.now) }
{
    match ending {
        Ending::Told(report) => told_status(report),
        Ending::Usage => 1,
        Ending::Missing(_) => 2,
        Ending::ReadFault(_) => 3,
        Ending::WriteFault => 4,
        Ending::LinkFault => 9,
        Ending::BadPeer { .. } => 10,
        Ending::PeerEnded => 11,
        Ending::Memory => 12,
    }
}

// A line of a text and a name.
fn named_line(alloc: Global, text: &[u8], name: &str) -> Result<Vec<u8>, AllocError>
    ensures { IfOk result (λ line. line.items ≡ text.now ++ name.now ++ codes "\n") }
{
    let mut line = Vec::from_slice(alloc, text)?;
    line.extend_from_slice(name.as_bytes())?;
    line.extend_from_slice(b"\n")?;
    Ok(line)
}

// The line of a run whose peer broke a rule.
fn bad_peer_line(alloc: Global, rule: u8, offset: u64) -> Result<Vec<u8>, AllocError>
    ensures { IfOk result (λ line. line.items ≡ codes "bad peer " ++ decimal rule ++ codes " " ++ decimal offset ++ codes "\n") }
{
    let mut buffer = Buffer::new();
    let mut line = Vec::from_slice(alloc, b"bad peer ")?;
    line.extend_from_slice(buffer.format(rule).as_bytes())?;
    line.push(b' ')?;
    line.extend_from_slice(buffer.format(offset).as_bytes())?;
    line.push(b'\n')?;
    Ok(line)
}

// The lines of a report.
fn lines(alloc: Global, report: Report) -> Result<Vec<u8>, AllocError>
    ensures { IfOk result (λ lines. lines.items ≡ report_bytes report) }
{
    match report {
        Report::Nothing => Ok(Vec::new(alloc)),
        Report::Accepted => Vec::from_slice(alloc, b"accepted\n"),
        Report::Split => Vec::from_slice(alloc, b"split\n"),
        Report::Faults(lines) => Ok(lines),
        Report::Ended(end, names) => end_line(alloc, names.as_slice(), &end),
        Report::Served(lines) => Ok(lines),
        Report::Audited => Vec::from_slice(alloc, b"audited\n"),
    }
}

/// What is reported of an ending.
pub(crate) fn reported(alloc: Global, ending: Ending<'_>) -> Result<Vec<u8>, AllocError>
    ensures { IfOk result (λ line. line.items ≡ report_of (ending_seen ending.entry)) }
{
    match ending {
        Ending::Told(report) => lines(alloc, report),
        Ending::Usage => Vec::from_slice(alloc, b"usage\n"),
        Ending::Missing(name) => named_line(alloc, b"missing ", name),
        Ending::ReadFault(name) => named_line(alloc, b"read fault ", name),
        Ending::WriteFault => Vec::from_slice(alloc, b"write fault\n"),
        Ending::LinkFault => Vec::from_slice(alloc, b"link fault\n"),
        Ending::BadPeer { rule, offset } => bad_peer_line(alloc, rule, offset),
        Ending::PeerEnded => Vec::from_slice(alloc, b"peer ended\n"),
        Ending::Memory => Vec::from_slice(alloc, b"memory\n"),
    }
}

/// How stages that stop end the call.
pub(crate) fn stopped<'a>(alloc: Global, stop: Stop) -> Ending<'a>
    ensures { IsStopped stop (ending_seen result) }
{
    let Stop::Refused(refusal) = stop else {
        return Ending::Memory;
    };
    match refusal_lines(alloc, refusal) {
        Ok(lines) => Ending::Told(Report::Faults(lines)),
        Err(_) => Ending::Memory,
    }
}
