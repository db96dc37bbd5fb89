// The objects of the outside that stand in memory, each through some calls.
use anyhow::Result;
use case_rows::push_bytes;
use pt_base::{
    Alternate, ByteSink, Bytes, Chooser, Folder, FolderFault, Link, LinkFault, MapFolder,
    ScriptChooser, ScriptLink, Sink, SinkFault, Spawner, Who,
};
use std::alloc::{AllocError, Global};

/// A folder of which the fourth and the fifth call fail, the fifth as a file that is missing.
///
/// # Errors
///
/// Want of memory.
pub fn folder(alloc: Global) -> Result<String> {
    let mut fails = Vec::new(alloc);
    fails.push((4, false))?;
    fails.push((5, true))?;
    let mut folder = MapFolder::new(Vec::new(alloc), fails);
    let mut told = String::from_str(alloc, "folder")?;
    push_done(&mut told, "write a", folder.write(alloc, "a", b"hello"))?;
    push_read(&mut told, "read 3 of a", folder.read(alloc, "a", 3))?;
    push_read(&mut told, "read 3 of b", folder.read(alloc, "b", 3))?;
    push_done(&mut told, "write a", folder.write(alloc, "a", b""))?;
    push_read(&mut told, "read 3 of a", folder.read(alloc, "a", 3))?;
    push_read(&mut told, "read 9 of a", folder.read(alloc, "a", 9))?;
    write!(told, "\n  files {}", folder.files().len())?;
    Ok(told)
}

fn push_done(
    told: &mut String,
    call: &str,
    done: Result<(), FolderFault>,
) -> Result<(), AllocError> {
    match done {
        Ok(()) => write!(told, "\n  {call}: done"),
        Err(fault) => write!(told, "\n  {call}: {}", folder_fault(fault)),
    }
}

fn push_read(
    told: &mut String,
    call: &str,
    read: Result<Vec<u8>, FolderFault>,
) -> Result<(), AllocError> {
    match read {
        Ok(bytes) => {
            write!(told, "\n  {call}: ")?;
            push_quoted(told, &bytes)
        }
        Err(fault) => write!(told, "\n  {call}: {}", folder_fault(fault)),
    }
}

fn push_quoted(told: &mut String, bytes: &[u8]) -> Result<(), AllocError> {
    told.push('"')?;
    push_bytes(told, bytes)?;
    told.push('"')
}

fn folder_fault(fault: FolderFault) -> &'static str {
    match fault {
        FolderFault::Missing => "Missing",
        FolderFault::Failed => "Failed",
        FolderFault::Memory => "Memory",
    }
}

/// A link that gives three pieces, one of them empty, and of which the second call fails.
///
/// # Errors
///
/// Want of memory.
pub fn link(alloc: Global) -> Result<String> {
    let mut pieces = Vec::new(alloc);
    pieces.push(Vec::from_slice(alloc, b"abc")?)?;
    pieces.push(Vec::new(alloc))?;
    pieces.push(Vec::from_slice(alloc, b"d")?)?;
    let mut fails = Vec::new(alloc);
    fails.push(2)?;
    let mut link = ScriptLink::new(alloc, pieces, fails);
    let mut told = String::from_str(alloc, "link")?;
    push_linked(&mut told, "send hi", link.send(alloc, b"hi"))?;
    push_linked(&mut told, "start", link.start(alloc))?;
    push_linked(&mut told, "inherit", link.inherit(alloc))?;
    for _ in 0..4 {
        match link.receive(alloc, 2) {
            Ok(bytes) => {
                told.push_str("\n  receive 2: ")?;
                push_quoted(&mut told, &bytes)?;
            }
            Err(fault) => push_linked(&mut told, "receive 2", Err(fault))?,
        }
    }
    told.push_str("\n  sent ")?;
    push_quoted(&mut told, link.sent())?;
    let (started, inherited) = (link.started(), link.inherited());
    write!(told, "\n  started {started}, inherited {inherited}")?;
    Ok(told)
}

fn push_linked(
    told: &mut String,
    call: &str,
    done: Result<(), LinkFault>,
) -> Result<(), AllocError> {
    match done {
        Ok(()) => write!(told, "\n  {call}: done"),
        Err(LinkFault::Failed) => write!(told, "\n  {call}: Failed"),
        Err(LinkFault::Memory) => write!(told, "\n  {call}: Memory"),
    }
}

/// A sink of which the second write fails. Its bytes are copied and taken back.
///
/// # Errors
///
/// Want of memory.
pub fn sink(alloc: Global) -> Result<String> {
    let mut fails = Vec::new(alloc);
    fails.push(2)?;
    let mut sink = ByteSink::new(alloc, fails);
    let mut told = String::from_str(alloc, "sink")?;
    for bytes in ["ab", "cd", "e"] {
        match sink.write(alloc, bytes.as_bytes()) {
            Ok(()) => write!(told, "\n  write {bytes}: done")?,
            Err(SinkFault::Failed) => write!(told, "\n  write {bytes}: Failed")?,
            Err(SinkFault::Memory) => write!(told, "\n  write {bytes}: Memory")?,
        }
    }
    let kept = Bytes::new(Vec::from_slice(alloc, sink.bytes())?);
    told.push_str("\n  taken ")?;
    let copy = kept.copy(alloc)?.into_vec();
    push_quoted(&mut told, &copy)?;
    Ok(told)
}

/// A chooser that gives one answer that is listed, and one that takes turns.
///
/// # Errors
///
/// Want of memory.
pub fn choosers(alloc: Global) -> Result<String> {
    let mut answers = Vec::new(alloc);
    answers.push(Who::Slave)?;
    let mut script = ScriptChooser::new(answers);
    let mut turns = Alternate::new();
    let mut told = String::from_str(alloc, "choosers")?;
    for _ in 0..3 {
        let (listed, in_turn) = (who(script.next()), who(turns.next()));
        write!(told, "\n  {listed}, in turn {in_turn}")?;
    }
    Ok(told)
}

fn who(who: Who) -> &'static str {
    match who {
        Who::Slave => "Slave",
        Who::Parent => "Parent",
    }
}
