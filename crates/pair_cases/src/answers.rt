// What serving a peer came to, in words.
use case_rows::push_bytes;
use pair_runner::RunFault;
use pt_base::End;
use std::alloc::AllocError;

/// Appends how a run ended, or why it broke off. A function is told by its number.
///
/// # Errors
///
/// Want of memory.
pub fn push_answer(told: &mut String, answer: Result<End, RunFault>) -> Result<(), AllocError> {
    match answer {
        Ok(end) => push_end(told, &end),
        Err(fault) => push_fault(told, fault),
    }
}

/// Appends how a run ended. A function is told by its number.
///
/// # Errors
///
/// Want of memory.
pub fn push_end(told: &mut String, end: &End) -> Result<(), AllocError> {
    match end {
        End::Exit(status) => write!(told, "exit {status}"),
        End::Trapped(trap, span) => {
            let (from, to) = (span.from, span.to);
            write!(told, "trap {} {from}..{to}", trap.name())
        }
        End::Spent => told.push_str("spent"),
        End::Refused {
            call,
            function,
            state,
        } => {
            write!(told, "refused {call} {} ", function.0)?;
            push_bytes(told, state.as_slice())
        }
    }
}

fn push_fault(told: &mut String, fault: RunFault) -> Result<(), AllocError> {
    match fault {
        RunFault::LinkFailed => told.push_str("link failed"),
        RunFault::SinkFailed => told.push_str("sink failed"),
        RunFault::BadPeer { rule, offset } => write!(told, "bad peer {rule} {offset}"),
        RunFault::PeerEnded => told.push_str("peer ended"),
        RunFault::Memory => Err(AllocError),
    }
}
