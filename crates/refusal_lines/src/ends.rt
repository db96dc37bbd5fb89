// How runs end, as lines and statuses tell it.
ghost use Rattle.std.specs.Prelude.{◌≡◌, ◌++◌, IfOk, codes};
ghost use Rattle.std.specs.Fmt.{decimal, signed_decimal};
ghost use Rattle.pt_base.specs.Traps.{trap_name};
ghost use Rattle.front_end.specs.FaultLines.{place_text};
ghost use Rattle.refusal_lines.specs.Ends as is;

use front_end::push_span;
use itoa::Buffer;
use pt_base::{Bytes, End, FnId, Span, Trap};
use std::alloc::{AllocError, Global};

// the line of a run whose main returned this
fn exit_line(alloc: Global, status: i32) -> Result<Vec<u8>, AllocError>
    ensures { IfOk result (λ line. line.items ≡ codes "exit " ++ signed_decimal status ++ codes "\n") }
{
    let mut buffer = Buffer::new();
    let mut line = Vec::from_slice(alloc, b"exit ")?;
    line.extend_from_slice(buffer.format(status).as_bytes())?;
    line.push(b'\n')?;
    Ok(line)
}

// the line of a run that broke off
fn trap_line(alloc: Global, trap: Trap, span: Span) -> Result<Vec<u8>, AllocError>
    ensures { IfOk result (λ line. line.items ≡ codes "trap " ++ trap_name trap ++ codes " " ++ place_text span ++ codes "\n") }
{
    let mut line = Vec::from_slice(alloc, b"trap ")?;
    line.extend_from_slice(trap.name().as_bytes())?;
    line.push(b' ')?;
    push_span(span, &mut line)?;
    line.push(b'\n')?;
    Ok(line)
}

// the line of a run that the policy ended at this call
fn refused_line(
    alloc: Global,
    call: u64,
    function: &[u8],
    state: &[u8],
) -> Result<Vec<u8>, AllocError>
    ensures { IfOk result (λ line. line.items ≡ codes "refused " ++ decimal call ++ codes " " ++ function.now ++ codes " " ++ state.now ++ codes "\n") }
{
    let mut buffer = Buffer::new();
    let mut line = Vec::from_slice(alloc, b"refused ")?;
    line.extend_from_slice(buffer.format(call).as_bytes())?;
    line.push(b' ')?;
    line.extend_from_slice(function)?;
    line.push(b' ')?;
    line.extend_from_slice(state)?;
    line.push(b'\n')?;
    Ok(line)
}

// the name of a function; none where there is no such function
fn name_among(names: &[Bytes], function: FnId) -> &[u8]
    ensures { result.now ≡ is.name_among names.now function.0 }
{
    match names.get(function.0 as usize) {
        Some(name) => name.as_slice(),
        None => &[],
    }
}

/// The line that reports how a run ended, of a program whose functions have these names, by their numbers.
///
/// # Errors
///
/// Want of memory alone.
pub fn end_line(alloc: Global, names: &[Bytes], end: &End) -> Result<Vec<u8>, AllocError>
    ensures { IfOk result (λ line. line.items ≡ is.end_line names.now end.now) }
{
    match end {
        End::Exit(status) => exit_line(alloc, *status),
        End::Trapped(trap, span) => trap_line(alloc, *trap, *span),
        End::Spent => Vec::from_slice(alloc, b"spent\n"),
        End::Refused {
            call,
            function,
            state,
        } => {
            let function = name_among(names, *function);
            refused_line(alloc, *call, function, state.as_slice())
        }
    }
}

/// The status of a call whose run ended so: 0 where main returned, 6 where the run broke off, 7 where the policy denied
/// a call, 8 where the budget was spent.
pub fn end_status(end: &End) -> u8
    ensures { result ≡ is.end_status end.now }
{
    match end {
        End::Exit(_) => 0,
        End::Trapped(..) => 6,
        End::Spent => 8,
        End::Refused { .. } => 7,
    }
}
