// What is known of bytes.
ghost use Rattle.wire.specs.Limits.{IsBytes};

/// Bytes are below 256. Nothing is done.
pub fn are_bytes(bytes: &[u8])
    ensures { IsBytes bytes.now }
{
    let _bytes = bytes;
}
