// What hosts write.
ghost use Rattle.std.specs.Prelude.{◌≡◌, ◌∷◌, ◌++◌, IfOk, OnOk, OnErr, map, codes};
ghost use Rattle.std.specs.Fmt.{signed_decimal};
ghost use Rattle.pt_tree.specs.HostStep.{low_byte, spaced};
ghost use Rattle.host_table.specs.Written.{Extends};

use itoa::Buffer;
use std::alloc::AllocError;

/// Appends the low 8 bits of each number. Where memory is wanting `out` stays as it is.
pub(crate) fn write_low_bytes(args: &[i128], out: &mut Vec<u8>) -> Result<(), AllocError>
    ensures ok { OnOk result (out.new.items ≡ out.old.items ++ map low_byte args.now) }
    ensures err { OnErr result (out.new.items ≡ out.old.items) }
{
    let before = out.len();
    let written = append_low_bytes(args, out);
    if written.is_err() {
        out.truncate(before);
    }
    written
}

/// Appends the name, each number in decimal with a space before it, and a line feed. Where memory
/// is wanting `out` stays as it is.
pub(crate) fn write_line(name: &[u8], args: &[i128], out: &mut Vec<u8>) -> Result<(), AllocError>
    ensures ok { OnOk result (out.new.items ≡ out.old.items ++ (name.now ++ spaced args.now ++ codes "\n")) }
    ensures err { OnErr result (out.new.items ≡ out.old.items) }
{
    let before = out.len();
    let written = append_line(name, args, out);
    if written.is_err() {
        out.truncate(before);
    }
    written
}

// Appends the low 8 bits of each number, maybe not of all of them where memory is wanting.
fn append_low_bytes(args: &[i128], out: &mut Vec<u8>) -> Result<(), AllocError>
    ensures ok { OnOk result (out.new.items ≡ out.old.items ++ map low_byte args.now) }
    ensures err { OnErr result (Extends out.old.items out.new.items) }
{
    for arg in args {
        out.push(low_byte(*arg))?;
    }
    Ok(())
}

// The low 8 bits of a number.
fn low_byte(v: i128) -> u8
    ensures { result ≡ low_byte v }
{
    v.rem_euclid(256) as u8
}

// Appends a line, maybe not all of it where memory is wanting.
fn append_line(name: &[u8], args: &[i128], out: &mut Vec<u8>) -> Result<(), AllocError>
    ensures ok { OnOk result (out.new.items ≡ out.old.items ++ (name.now ++ spaced args.now ++ codes "\n")) }
    ensures err { OnErr result (Extends out.old.items out.new.items) }
{
    out.extend_from_slice(name)?;
    append_numbers(args, out)?;
    out.push(b'\n')?;
    Ok(())
}

// Appends each number with a space before it, maybe not all of them where memory is wanting.
fn append_numbers(args: &[i128], out: &mut Vec<u8>) -> Result<(), AllocError>
    ensures ok { OnOk result (out.new.items ≡ out.old.items ++ spaced args.now) }
    ensures err { OnErr result (Extends out.old.items out.new.items) }
{
    for arg in args {
        append_number(*arg, out)?;
    }
    Ok(())
}

// Appends a space and the number, maybe the space alone where memory is wanting.
fn append_number(arg: i128, out: &mut Vec<u8>) -> Result<(), AllocError>
    ensures ok { OnOk result (out.new.items ≡ out.old.items ++ (codes " " ++ signed_decimal arg)) }
    ensures err { OnErr result (Extends out.old.items out.new.items) }
{
    let mut buffer = Buffer::new();
    out.push(b' ')?;
    out.extend_from_slice(buffer.format(arg).as_bytes())?;
    Ok(())
}
