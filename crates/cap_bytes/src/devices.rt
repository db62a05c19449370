//! What bytes come from and go to, as far as a contract can speak of it.
ghost use Rattle.std.specs.Prelude.{◌≡◌, ℕ, List, Option, Bool, ◌||◌, ◌≤◌, ◌<◌, length, is_err, IsTrue, IsErr, IfOk};
ghost use Rattle.std.specs.Prelude.{IfSome, IsOkUnless};
ghost use Rattle.cap_bytes.specs.Device.{Takes, Gives, Puts, WriterKeeps, writer_of};

use crate::faults::Fault;

/// A device failed, or a writer took none of some bytes.
#[derive(Clone, Copy, Debug, PartialEq, Eq)]
pub struct Broken;

/// What bytes come from or go to. It says whether it has failed, so that a contract can say that
/// a fault comes only if a device failed.
pub trait Device: Drop {
    /// Whether it has failed so far.
    ghost has_failed: { Self → Bool };

    /// Whether it can fail at all.
    ghost can_fail: { Self → Bool };

    /// Whether it has failed so far.
    fn failed(&self) -> bool
        ensures { result ≡ has_failed self.now };
}

/// A device that bytes come from. It may give any number of them at a time.
pub trait Source: Device {
    /// Whether it tells the bytes to come.
    ghost tells_coming: { Self → Bool };

    /// The bytes to come, if it tells them.
    ghost coming: { Self → List ℕ };

    /// How many bytes it gives at a time at most, if it tells that.
    ghost most: { Self → Option ℕ };

    /// Puts the next bytes at the front of `buffer`, and returns how many they are: 0 if none
    /// are left, or if there is no room.
    fn take(&mut self, buffer: &mut [u8]) -> Result<usize, Broken>
        ensures count { IfOk result (λ n. n ≤ length buffer.new) }
        ensures few { IfSome (most self.old) (λ most. IfOk result (λ n. n ≤ most)) }
        ensures most { most self.new ≡ most self.old }
        ensures bytes { IsTrue (tells_coming self.old)
            → Takes (coming self.old) result (coming self.new) buffer.new }
        ensures told { IsTrue (tells_coming self.old) → IsTrue (tells_coming self.new) }
        ensures failed { Self.has_failed self.new ≡ (Self.has_failed self.old || is_err result) }
        ensures can { IsErr result → IsTrue (Self.can_fail self.old) }
        ensures cannot { IsTrue (Self.can_fail self.new) → IsTrue (Self.can_fail self.old) };
}

/// A device that bytes go to. It may take any number of them at a time, at least one.
pub trait Sink: Device {
    /// Whether it tells the bytes that it holds.
    ghost tells_held: { Self → Bool };

    /// The bytes that it holds, if it tells them.
    ghost held: { Self → List ℕ };

    /// Takes some of the first bytes, and returns how many: of some bytes at least one.
    fn give(&mut self, bytes: &[u8]) -> Result<usize, Broken>
        ensures count { IfOk result (λ n. n ≤ length bytes.now) }
        ensures some { IfOk result (λ n. 0 < length bytes.now → 0 < n) }
        ensures bytes { IsTrue (tells_held self.old)
            → Gives (held self.old) result (held self.new) bytes.now }
        ensures told { IsTrue (tells_held self.old) → IsTrue (tells_held self.new) }
        ensures failed { Self.has_failed self.new ≡ (Self.has_failed self.old || is_err result) }
        ensures can { IsErr result → IsTrue (Self.can_fail self.old) }
        ensures cannot { IsTrue (Self.can_fail self.new) → IsTrue (Self.can_fail self.old) };

    /// Takes all the bytes, by as many calls of `give` as that takes. After a failure it has taken a prefix of them. A
    /// device for which one call costs less writes this method too.
    fn give_all(&mut self, bytes: &[u8]) -> Result<(), Broken>
        ensures bytes { IsTrue (tells_held self.old)
            → Puts (held self.old) result (held self.new) bytes.now }
        ensures told { IsTrue (tells_held self.old) → IsTrue (tells_held self.new) }
        ensures failed { Self.has_failed self.new ≡ (Self.has_failed self.old || is_err result) }
        ensures can { IsErr result → IsTrue (Self.can_fail self.old) }
        ensures cannot { IsTrue (Self.can_fail self.new) → IsTrue (Self.can_fail self.old) }
    {
        let mut rest = bytes;
        while !rest.is_empty() {
            let count = self.give(rest)?;
            rest = rest.split_at(count).1;
        }
        Ok(())
    }
}

/// Writes all the bytes. Returns `Fault::Write`, and no other fault, if the writer failed: a prefix of the bytes is
/// written then.
#[inline(always)]
pub fn put_all<W: Sink>(writer: &mut W, bytes: &[u8]) -> Result<(), Fault>
    ensures bytes { IsTrue (W.tells_held writer.old)
        → Puts (W.held writer.old) result (W.held writer.new) bytes.now }
    ensures writer { WriterKeeps (writer_of W.Sink writer.old) (is_err result) (writer_of W.Sink writer.new) }
    ensures fault { IsOkUnless result Fault.Write }
{
    match writer.give_all(bytes) {
        Ok(()) => Ok(()),
        Err(Broken) => Err(Fault::Write),
    }
}
