// From a program's text to its typed tree: tokens, the parsed tree, types, each where the stage
// before finds no fault.
ghost use Rattle.std.specs.Prelude.{◌<◌, ◌^◌, IfOk};
ghost use Rattle.typed_tree.specs.Nodes.{nodes_of};
ghost use Rattle.typed_tree.specs.TypedView.{view_typed};
ghost use Rattle.front_end.specs.Reading.{HasTree, Reads};

use crate::error::FrontError;
use crate::parse_fault::{ParseFault, ParseFaultKind, place};
use c_lexer::lex;
use c_parser::{ParseError, parse};
use c_types::check_types;
use pt_tree::Program;
use std::alloc::Global;
use typed_tree::Typed;

/// The parsed tree of a text.
fn parsed(alloc: Global, text: &[u8]) -> Result<Program, FrontError>
    ensures { HasTree text.now result }
{
    let tokens = lex(alloc, text)?;
    let (kind, token) = match parse(alloc, &tokens) {
        Ok(program) => return Ok(program),
        Err(ParseError::Memory) => return Err(FrontError::Memory),
        Err(ParseError::FaultAt(token)) => (ParseFaultKind::FaultAt, token),
        Err(ParseError::TooDeep(token)) => (ParseFaultKind::TooDeep, token),
    };
    let at = place(text, &tokens, token);
    Err(FrontError::Parse(ParseFault { kind, at }))
}

/// The typed tree of a program's text, which has fewer than 16,777,216 nodes.
///
/// # Errors
///
/// `Memory`; or the first fault of the text where it has no tokens, or where its tokens are no
/// program; or all type faults of the program.
pub fn read_program(alloc: Global, text: &[u8]) -> Result<Typed, FrontError>
    ensures reading { Reads text.now result }
    ensures small { IfOk result (λ t. nodes_of (view_typed t) < 2 ^ 24) }
{
    let program = parsed(alloc, text)?;
    let typed = check_types(alloc, &program)?;
    Ok(typed)
}
