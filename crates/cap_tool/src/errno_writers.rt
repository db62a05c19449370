//! A writer of which it is known what the system said of it.

use std::io;
use std::io::Write;

/// A writer that does what `inner` does, and keeps the number of its last error, if the system gave one.
#[derive(Drop)]
pub struct ErrnoWriter<W> {
    inner: W,
    error: Option<i32>,
}

impl<W> ErrnoWriter<W> {
    ghost use Rattle.std.specs.Prelude.{◌≡◌, None};
    ghost use Rattle.cap_tool.specs.ErrnoWriter.{error_of, errno_inner};

    /// A writer that does what `inner` does, and had no error.
    pub fn new(inner: W) -> ErrnoWriter<W>
        ensures inner { errno_inner result ≡ inner }
        ensures error { error_of result ≡ None }
    {
        ErrnoWriter { inner, error: None }
    }

    /// What it writes to.
    pub fn get_ref(&self) -> &W
        ensures { result.now ≡ errno_inner self.now }
    {
        &self.inner
    }

    /// The number of the last error, as the system counts them.
    pub fn error(&self) -> Option<i32>
        ensures { result ≡ error_of self.now }
    {
        self.error
    }
}

impl<W: Write> Write for ErrnoWriter<W> {
    ghost use Rattle.cap_tool.specs.ErrnoWriter.{errno_inner};

    ghost contents = { λ r. W.contents (errno_inner r) };

    fn write(&mut self, bytes: &[u8]) -> io::Result<usize> {
        let answer = self.inner.write(bytes);
        if let Err(error) = &answer {
            self.error = error.raw_os_error();
        }
        answer
    }

    fn flush(&mut self) -> io::Result<()> {
        let answer = self.inner.flush();
        if let Err(error) = &answer {
            self.error = error.raw_os_error();
        }
        answer
    }
}
