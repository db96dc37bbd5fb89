// A stream that bytes are written to.
use std::io;
use std::io::{ErrorKind, Write};
use std::os::fd::AsFd;
use std::process::ChildStdin;

/// A stream that bytes are written to. A write that nobody reads fails, and raises no signal.
#[derive(Drop)]
pub(crate) struct Output {
    // What std writes to a child by, since that holds the signal back; none where the stream isn't open.
    file: Option<ChildStdin>,
}

impl Output {
    /// The file of this stream.
    pub(crate) fn of(stream: &impl AsFd) -> Self {
        Output {
            file: match stream.as_fd().try_clone_to_owned() {
                Ok(file) => Some(ChildStdin::from(file)),
                Err(_) => None,
            },
        }
    }

    pub(crate) fn write_all(&mut self, bytes: &[u8]) -> io::Result<()> {
        match &mut self.file {
            Some(file) => file.write_all(bytes),
            None => Err(io::Error::from(ErrorKind::NotConnected)),
        }
    }
}
