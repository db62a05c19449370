//! Devices over `Read` and `Write` of the standard library.
ghost use Rattle.std.specs.Prelude.{◌≡◌, ◌<◌, ◌⊎◌, false, IfOk, IsErr};

use crate::devices::{Broken, Device, Sink, Source};
use std::io;
use std::io::{Read, Write};

/// A `Read` or a `Write` of the standard library as a device. Any error is a failure, also
/// `Interrupted`, and so is a write that takes none of some bytes.
#[derive(Drop)]
pub struct Tracked<T> {
    inner: T,
    failed: bool,
}

impl<T> Tracked<T> {
    ghost use Rattle.cap_bytes.specs.Tracked.{tracked_inner, has_failed};

    /// A device over `inner` that hasn't failed.
    pub fn new(inner: T) -> Tracked<T>
        ensures inner { tracked_inner result ≡ inner }
        ensures fresh { has_failed result ≡ false }
    {
        Tracked {
            inner,
            failed: false,
        }
    }

    /// What it reads from or writes to.
    pub fn into_inner(self) -> T
        ensures { result ≡ tracked_inner self }
    {
        self.inner
    }
}

// What a read of the standard library gave. Any error is a failure.
fn gave(answer: io::Result<usize>) -> Result<usize, Broken>
    ensures count { IfOk answer (λ n. result ≡ Ok n) }
    ensures failed { IsErr answer → IsErr result }
{
    match answer {
        Ok(count) => Ok(count),
        Err(_) => Err(Broken),
    }
}

// What a write of the standard library took of that many bytes. Any error is a failure, and so is 0 of some bytes.
fn took(answer: io::Result<usize>, length: usize) -> Result<usize, Broken>
    ensures count { IfOk answer (λ n. (0 < n ⊎ length ≡ 0) → result ≡ Ok n) }
    ensures none { IfOk answer (λ n. n ≡ 0 → 0 < length → IsErr result) }
    ensures failed { IsErr answer → IsErr result }
{
    match answer {
        Ok(count) if count > 0 || length == 0 => Ok(count),
        _ => Err(Broken),
    }
}

impl<T: Drop> Device for Tracked<T> {
    ghost use Rattle.std.specs.Prelude.{true};
    ghost use Rattle.cap_bytes.specs.Tracked.{has_failed as failed_of};

    ghost has_failed = { λ t. failed_of t };

    ghost can_fail = { λ _. true };

    fn failed(&self) -> bool {
        self.failed
    }
}

impl<T: Read + Drop> Source for Tracked<T> {
    ghost use Rattle.std.specs.Prelude.{None, is_some, unwrap_or, []};
    ghost use Rattle.cap_bytes.specs.Tracked.{tracked_inner};

    ghost tells_coming = { λ t. is_some (T.remaining (tracked_inner t)) };

    ghost coming = { λ t. unwrap_or (T.remaining (tracked_inner t)) [] };

    ghost most = { λ _. None };

    fn take(&mut self, buffer: &mut [u8]) -> Result<usize, Broken> {
        let answer = gave(self.inner.read(buffer));
        self.failed = self.failed || answer.is_err();
        answer
    }
}

impl<T: Write + Drop> Sink for Tracked<T> {
    ghost use Rattle.std.specs.Prelude.{is_some, unwrap_or, []};
    ghost use Rattle.cap_bytes.specs.Tracked.{tracked_inner};

    ghost tells_held = { λ t. is_some (T.contents (tracked_inner t)) };

    ghost held = { λ t. unwrap_or (T.contents (tracked_inner t)) [] };

    fn give(&mut self, bytes: &[u8]) -> Result<usize, Broken> {
        let answer = took(self.inner.write(bytes), bytes.len());
        self.failed = self.failed || answer.is_err();
        answer
    }
}
