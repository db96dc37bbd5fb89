// Bytes as they are shown.
ghost use Rattle.std.specs.Prelude.{◌≡◌, ◌++◌, OnOk};
ghost use Rattle.source_places.specs.Shown as is;

use std::alloc::AllocError;

/// A byte as it is shown: a tab, a space or a sign of ASCII as it is, every other byte as `?`.
pub fn shown_byte(byte: u8) -> u8
    ensures { result ≡ is.shown_byte byte }
{
    if byte == b'\t' || (32 <= byte && byte <= 126) {
        byte
    } else {
        b'?'
    }
}

/// Appends bytes as they are shown. Where memory is wanting, a first part of them may stand there.
pub fn push_shown(bytes: &[u8], out: &mut Vec<u8>) -> Result<(), AllocError>
    ensures { OnOk result (out.new.items ≡ out.old.items ++ is.shown_bytes bytes.now) }
{
    for byte in bytes {
        out.push(shown_byte(*byte))?;
    }
    Ok(())
}
