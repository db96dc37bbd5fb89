// The functions of a program, as they are drawn.
ghost use Rattle.std.specs.Prelude.{◌≡◌, ◌*◌, ◌+◌, IfOk, ℕ};
ghost use Rattle.program_gen.specs.Draws.{state};
ghost use Rattle.program_gen.specs.Functions.{function_at, functions_of, kind_for};

use crate::draws::Draws;
use std::alloc::{AllocError, Global};

/// What a function does with its argument.
#[derive(Clone, Copy)]
pub(crate) enum Kind {
    /// It adds to it.
    Adds,
    /// It adds to it in a loop.
    Loops,
    /// It loads a secret by it, and has that signed.
    Signs,
    /// It is privileged, and gives a number away that it makes of a secret.
    Declassifies,
}

/// A function of a program.
#[derive(Clone, Copy)]
pub(crate) struct Function {
    pub number: u32,
    pub kind: Kind,
    /// What it adds, or has signed a secret with.
    pub addend: u32,
    /// How many rounds its loop has, or what it multiplies a secret by.
    pub times: u32,
}

// The kind that a draw chooses.
fn kind_for(draw: u32) -> Kind
    ensures { result ≡ kind_for draw }
{
    match draw % 4 {
        0 => Kind::Adds,
        1 => Kind::Loops,
        2 => Kind::Signs,
        _ => Kind::Declassifies,
    }
}

// Draws the function of this number, by three numbers.
fn draw_function(number: u32, draws: &mut Draws) -> Function
    ensures function { (seed : ℕ) → draws.old ≡ state seed (3 * number) → result ≡ function_at seed number }
    ensures state { (seed : ℕ) → draws.old ≡ state seed (3 * number) → draws.new ≡ state seed (3 * (number + 1)) }
{
    let choice = draws.draw();
    let first = draws.draw();
    let second = draws.draw();
    Function {
        number,
        kind: kind_for(choice),
        addend: first % 1000,
        times: 1 + second % 9,
    }
}

/// So many functions.
pub(crate) fn draw_functions(
    alloc: Global,
    seed: u32,
    count: u32,
) -> Result<Vec<Function>, AllocError>
    ensures { IfOk result (λ functions. functions.items ≡ functions_of seed count) }
{
    let mut draws = Draws::new(seed);
    let mut functions = Vec::new(alloc);
    for number in 0..count {
        functions.push(draw_function(number, &mut draws))?;
    }
    Ok(functions)
}
