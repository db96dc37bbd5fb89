// The text of a program.
ghost use Rattle.std.specs.Prelude.{◌≡◌, ◌++◌, IfOk, OnOk};
ghost use Rattle.std.specs.Fmt.{decimal};
ghost use Rattle.std.specs.List.{flat_map};
ghost use Rattle.program_gen.specs.Functions.{name_of};
ghost use Rattle.program_gen.specs.Programs.{adding, call_of, declassifying, line_of, looping, program_of, signing};

use crate::functions::{Function, Kind};
use itoa::Buffer;
use std::alloc::{AllocError, Global};

/// The hosts' declarations.
const HEAD: &[u8] =
    b"__attribute__((priv)) int load(int n);\n__attribute__((priv, declassify)) int sign(__attribute__((priv)) int k, int n);\nvoid put(int v);\n";

/// Appends a text and behind it a number in decimal.
fn push_numbered(text: &[u8], number: u32, to: &mut Vec<u8>) -> Result<(), AllocError>
    ensures { OnOk result (to.new.items ≡ to.old.items ++ text.now ++ decimal number) }
{
    let mut digits = Buffer::new();
    to.extend_from_slice(text)?;
    to.extend_from_slice(digits.format(number).as_bytes())
}

/// Appends a function's name.
pub(crate) fn push_name(function: &Function, to: &mut Vec<u8>) -> Result<(), AllocError>
    ensures { OnOk result (to.new.items ≡ to.old.items ++ name_of function.now) }
{
    push_numbered(b"f", function.number, to)
}

// Appends the line of a function that adds.
fn push_adding(function: &Function, program: &mut Vec<u8>) -> Result<(), AllocError>
    ensures { OnOk result (program.new.items ≡ program.old.items ++ adding function.now) }
{
    program.extend_from_slice(b"int ")?;
    push_name(function, program)?;
    push_numbered(b"(int x) { return (x + ", function.addend, program)?;
    program.extend_from_slice(b") % 1000; }\n")?;
    Ok(())
}

// Appends the line of a function that adds in a loop.
fn push_looping(function: &Function, program: &mut Vec<u8>) -> Result<(), AllocError>
    ensures { OnOk result (program.new.items ≡ program.old.items ++ looping function.now) }
{
    program.extend_from_slice(b"int ")?;
    push_name(function, program)?;
    push_numbered(
        b"(int x) { int i; int s; s = x; for (i = 0; i < ",
        function.times,
        program,
    )?;
    push_numbered(b"; i++) s = (s + ", function.addend, program)?;
    program.extend_from_slice(b") % 1000; return s; }\n")?;
    Ok(())
}

// Appends the line of a function that has a secret signed.
fn push_signing(function: &Function, program: &mut Vec<u8>) -> Result<(), AllocError>
    ensures { OnOk result (program.new.items ≡ program.old.items ++ signing function.now) }
{
    program.extend_from_slice(b"int ")?;
    push_name(function, program)?;
    push_numbered(
        b"(int x) { int k; k = load(x % 4); return sign(k, ",
        function.addend,
        program,
    )?;
    program.extend_from_slice(b"); }\n")?;
    Ok(())
}

// Appends the line of a function that gives away what it makes of a secret.
fn push_declassifying(function: &Function, program: &mut Vec<u8>) -> Result<(), AllocError>
    ensures { OnOk result (program.new.items ≡ program.old.items ++ declassifying function.now) }
{
    program.extend_from_slice(b"__attribute__((priv, declassify)) int ")?;
    push_name(function, program)?;
    push_numbered(b"(int x) { return load(x % 4) * ", function.times, program)?;
    push_numbered(b" + ", function.addend, program)?;
    program.extend_from_slice(b"; }\n")?;
    Ok(())
}

// Appends a function's line.
fn push_line(function: &Function, program: &mut Vec<u8>) -> Result<(), AllocError>
    ensures { OnOk result (program.new.items ≡ program.old.items ++ line_of function.now) }
{
    match function.kind {
        Kind::Adds => push_adding(function, program),
        Kind::Loops => push_looping(function, program),
        Kind::Signs => push_signing(function, program),
        Kind::Declassifies => push_declassifying(function, program),
    }
}

// Appends a call of a function, and what shows its result.
fn push_call(function: &Function, program: &mut Vec<u8>) -> Result<(), AllocError>
    ensures { OnOk result (program.new.items ≡ program.old.items ++ call_of function.now) }
{
    program.extend_from_slice(b" x = ")?;
    push_name(function, program)?;
    program.extend_from_slice(b"(x); put(x);")
}

// Appends the line of each function.
fn push_lines(functions: &[Function], program: &mut Vec<u8>) -> Result<(), AllocError>
    ensures { OnOk result (program.new.items ≡ program.old.items ++ flat_map line_of functions.now) }
{
    for function in functions {
        push_line(function, program)?;
    }
    Ok(())
}

// Appends a call of each function.
fn push_calls(functions: &[Function], program: &mut Vec<u8>) -> Result<(), AllocError>
    ensures { OnOk result (program.new.items ≡ program.old.items ++ flat_map call_of functions.now) }
{
    for function in functions {
        push_call(function, program)?;
    }
    Ok(())
}

/// The program of these functions.
pub(crate) fn program_of(alloc: Global, functions: &[Function]) -> Result<Vec<u8>, AllocError>
    ensures { IfOk result (λ program. program.items ≡ program_of functions.now) }
{
    let mut program = Vec::from_slice(alloc, HEAD)?;
    push_lines(functions, &mut program)?;
    program.extend_from_slice(b"int main(void) { int x; x = 1;")?;
    push_calls(functions, &mut program)?;
    program.extend_from_slice(b" return 0; }\n")?;
    Ok(program)
}
