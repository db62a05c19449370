//! A device whose bytes are counted for the line that shows how far a run is.
ghost use Rattle.std.specs.Prelude.{◌≡◌};
ghost use Rattle.cap_tool.specs.ProgressDevice.{progress_inner};

use crate::outlets::Outlet;
use crate::progress::Progress;
use cap_bytes::{Broken, Device, Sink, Source};
use std::io;
use std::time::Clock;

/// A device that does what `inner` does. Of a reader the progress learns how many bytes came, and of a writer
/// that something is about to be seen.
#[derive(Drop)]
pub struct ProgressDevice<'a, T, C: Clock> {
    inner: T,
    progress: &'a Progress<'a, C>,
}

impl<'a, T, C: Clock> ProgressDevice<'a, T, C> {
    /// A device that does what `inner` does, and tells that progress.
    pub fn new(inner: T, progress: &'a Progress<'a, C>) -> ProgressDevice<'a, T, C>
        ensures inner { progress_inner result ≡ inner }
    {
        ProgressDevice { inner, progress }
    }

    /// What it reads from or writes to.
    pub fn into_inner(self) -> T
        ensures { result ≡ progress_inner self.entry }
    {
        self.inner
    }
}

impl<'a, T: Device, C: Clock> Device for ProgressDevice<'a, T, C> {
    ghost has_failed = { λ w. T.has_failed (progress_inner w) };

    ghost can_fail = { λ w. T.can_fail (progress_inner w) };

    fn failed(&self) -> bool {
        self.inner.failed()
    }
}

impl<'a, T: Source, C: Clock> Source for ProgressDevice<'a, T, C> {
    ghost tells_coming = { λ w. T.tells_coming (progress_inner w) };

    ghost coming = { λ w. T.coming (progress_inner w) };

    ghost most = { λ w. T.most (progress_inner w) };

    fn take(&mut self, buffer: &mut [u8]) -> Result<usize, Broken> {
        self.progress.before_read();
        let count = self.inner.take(buffer)?;
        self.progress.add(count);
        Ok(count)
    }
}

impl<'a, T: Sink, C: Clock> Sink for ProgressDevice<'a, T, C> {
    ghost tells_held = { λ w. T.tells_held (progress_inner w) };

    ghost held = { λ w. T.held (progress_inner w) };

    fn give(&mut self, bytes: &[u8]) -> Result<usize, Broken> {
        self.progress.make_way();
        self.inner.give(bytes)
    }

    fn give_all(&mut self, bytes: &[u8]) -> Result<(), Broken> {
        self.progress.make_way();
        self.inner.give_all(bytes)
    }
}

impl<'a, T: Outlet, C: Clock> Outlet for ProgressDevice<'a, T, C> {
    ghost waiting = { λ w. T.waiting (progress_inner w) };

    fn flush(&mut self) -> io::Result<()> {
        self.inner.flush()
    }

    fn error(&self) -> Option<i32> {
        self.inner.error()
    }
}
