//! Writes to standard output, and remembers the error of a failed write. If standard output leads
//! to a regular file, a call of [`store`] waits until the system has stored this file.

use std::fs::{self, OpenOptions};
use std::io::{self, ErrorKind, Write};

/// A path with which the program can open its standard output a second time.
const PATH: &str = "/dev/stdout";

/// A writer, and the error of its last write if that write failed.
#[derive(Drop)]
pub(crate) struct Remembering<W> {
    inner: W,
    error: Option<io::Error>,
}

impl<W> Remembering<W> {
    pub(crate) fn new(inner: W) -> Remembering<W> {
        Remembering { inner, error: None }
    }

    /// Returns the error of the last write if that write failed.
    pub(crate) fn error(&self) -> Option<&io::Error> {
        self.error.as_ref()
    }

    /// Whether the last write failed because nobody reads the output any more.
    pub(crate) fn lacks_reader(&self) -> bool {
        match &self.error {
            Some(error) => error.kind() == ErrorKind::BrokenPipe,
            None => false,
        }
    }
}

impl<W: Write> Write for Remembering<W> {
    fn write(&mut self, bytes: &[u8]) -> io::Result<usize> {
        let written = self.inner.write(bytes);
        self.error = match &written {
            Ok(_) => None,
            Err(error) => Some(same_error(error)),
        };
        written
    }

    fn flush(&mut self) -> io::Result<()> {
        self.inner.flush()
    }
}

/// Returns a new error that has the same error code of the operating system. If the given error has
/// no such code, returns an error of the same kind. This function is needed because an `io::Error`
/// can't be copied.
fn same_error(error: &io::Error) -> io::Error {
    match error.raw_os_error() {
        Some(code) => io::Error::from_raw_os_error(code),
        None => error.kind().into(),
    }
}

/// Waits until the system has stored the output. This call is needed because some file systems
/// report a failed write only when the file is synced. Only a regular file is synced, because a
/// pipe or a terminal stores nothing. If the file can't be examined or can't be opened a second
/// time, it isn't synced, and the call succeeds.
pub(crate) fn store(rt: &HostRuntime) -> io::Result<()> {
    match fs::metadata(rt, PATH) {
        Ok(metadata) if metadata.is_file() => sync(rt),
        _ => Ok(()),
    }
}

fn sync(rt: &HostRuntime) -> io::Result<()> {
    match OpenOptions::new().write(true).open(rt, PATH) {
        Ok(file) => file.sync_all(),
        Err(_) => Ok(()),
    }
}
