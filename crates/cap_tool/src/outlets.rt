//! What a run writes to: a device in whose buffer bytes may wait until it is flushed.
ghost use Rattle.std.specs.Prelude.{◌≡◌, ◌<◌, ◌⊎◌, ℕ, List, [], IsTrue, IsErr, IfErr, IfOk, OnOk};

use crate::errno_writers::ErrnoWriter;
use crate::outcomes::Outcome;
use cap_bytes::{Broken, Device, Fault, Sink};
use std::alloc::Global;
use std::io;
use std::io::{BufWriter, Write};

/// A device that bytes go to, and in whose buffer they may wait. It holds them also while they wait.
pub trait Outlet: Sink {
    /// The bytes that wait, if it tells those that it holds.
    ghost waiting: { Self → List ℕ };

    /// Writes what waits. Bytes that could not be written wait on, so a later flush fails too.
    fn flush(&mut self) -> io::Result<()>
        ensures held { IsTrue (Self.tells_held self.old) → Self.held self.new ≡ Self.held self.old }
        ensures told { IsTrue (Self.tells_held self.old) → IsTrue (Self.tells_held self.new) }
        ensures all { OnOk result (IsTrue (Self.tells_held self.old) → waiting self.new ≡ []) }
        ensures can { IsErr result → IsTrue (Self.can_fail self.old) };

    /// The number of the system's error at which the last write or flush failed, if one did.
    fn error(&self) -> Option<i32>;
}

/// A writer of the standard library behind a buffer. Any error is a failure, and so is a write that takes none of some
/// bytes.
#[derive(Drop)]
pub struct Buffered<W: Write + Drop> {
    writer: BufWriter<ErrnoWriter<W>>,
    failed: bool,
}

impl<W: Write + Drop> Buffered<W> {
    ghost use Rattle.cap_tool.specs.Outlets.{buffered_inner, buffered_waiting};

    /// A device over `inner`, in whose buffer as many bytes wait as `size` says. Returns `Fault::Memory`, and no other
    /// outcome, if memory is refused.
    pub fn new(alloc: Global, size: usize, inner: W) -> Result<Buffered<W>, Outcome>
        ensures inner { IfOk result (λ made. buffered_inner made ≡ inner) }
        ensures waiting { IfOk result (λ made. buffered_waiting made ≡ []) }
        ensures memory { IfErr result (λ outcome. outcome ≡ Outcome.Fault Fault.Memory) }
    {
        match BufWriter::with_capacity(alloc, size, ErrnoWriter::new(inner)) {
            Ok(writer) => Ok(Buffered {
                writer,
                failed: false,
            }),
            Err(_) => Err(Outcome::Fault(Fault::Memory)),
        }
    }
}

impl<W: Write + Drop> Device for Buffered<W> {
    ghost use Rattle.std.specs.Prelude.{true};
    ghost use Rattle.cap_tool.specs.Outlets.{buffered_failed};

    ghost has_failed = { λ b. buffered_failed b };

    ghost can_fail = { λ _. true };

    fn failed(&self) -> bool {
        self.failed
    }
}

// What a write took of that many bytes: any error is a failure, and so is 0 of some bytes.
fn taken_of(answer: io::Result<usize>, length: usize) -> Result<usize, Broken>
    ensures count { IfOk answer (λ n. (0 < n ⊎ length ≡ 0) → result ≡ Ok n) }
    ensures none { IfOk answer (λ n. n ≡ 0 → 0 < length → IsErr result) }
    ensures failed { IsErr answer → IsErr result }
{
    match answer {
        Ok(count) if count > 0 || length == 0 => Ok(count),
        _ => Err(Broken),
    }
}

impl<W: Write + Drop> Sink for Buffered<W> {
    ghost use Rattle.std.specs.Prelude.{is_some, unwrap_or};
    ghost use Rattle.cap_tool.specs.Outlets.{buffered_contents};

    ghost tells_held = { λ b. is_some (buffered_contents W.contents b) };

    ghost held = { λ b. unwrap_or (buffered_contents W.contents b) [] };

    fn give(&mut self, bytes: &[u8]) -> Result<usize, Broken> {
        let answer = taken_of(self.writer.write(bytes), bytes.len());
        self.failed = self.failed || answer.is_err();
        answer
    }
}

impl<W: Write + Drop> Outlet for Buffered<W> {
    ghost use Rattle.cap_tool.specs.Outlets.{buffered_waiting};

    ghost waiting = { λ b. buffered_waiting b };

    fn flush(&mut self) -> io::Result<()> {
        self.writer.flush()
    }

    fn error(&self) -> Option<i32> {
        self.writer.get_ref().error()
    }
}
