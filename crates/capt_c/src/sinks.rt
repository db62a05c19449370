//! Where texts are written: memory that grows.
ghost use Rattle.std.specs.Prelude.{◌≡◌, ◌<◌, ◌≤◌, ◌++◌, take, length, true, IfOk, IsErr};

use cap_bytes::{Broken, Device, Sink};
use std::alloc::Global;

/// A writer into a vector, which grows. It fails if a growth is refused.
#[derive(Drop)]
pub struct VecSink {
    bytes: Vec<u8>,
    failed: bool,
}

impl VecSink {
    ghost use Rattle.std.specs.Prelude.{[], false};

    /// A writer into a vector that is empty.
    pub fn new(alloc: Global) -> VecSink
        ensures held { ⟦<VecSink as Sink>⟧.held result ≡ [] }
        ensures fresh { ⟦<VecSink as Device>⟧.has_failed result ≡ false }
    {
        VecSink::behind(Vec::new(alloc))
    }

    /// A writer behind what a vector has.
    pub fn behind(bytes: Vec<u8>) -> VecSink
        ensures held { ⟦<VecSink as Sink>⟧.held result ≡ bytes.items }
        ensures fresh { ⟦<VecSink as Device>⟧.has_failed result ≡ false }
    {
        VecSink {
            bytes,
            failed: false,
        }
    }

    /// What was written.
    pub fn into_bytes(self) -> Vec<u8>
        ensures { result.items ≡ ⟦<VecSink as Sink>⟧.held self }
    {
        self.bytes
    }
}

impl Device for VecSink {
    ghost has_failed = { λ g. g.failed };

    ghost can_fail = { λ _. true };

    fn failed(&self) -> bool {
        self.failed
    }
}

impl Sink for VecSink {
    ghost use Rattle.std.specs.Prelude.{true};

    ghost tells_held = { λ _. true };

    ghost held = { λ g. g.bytes.items };

    fn give(&mut self, bytes: &[u8]) -> Result<usize, Broken> {
        let answer = append(&mut self.bytes, bytes);
        self.failed = self.failed || answer.is_err();
        answer
    }
}

// Appends the bytes, and returns how many they are.
fn append(vector: &mut Vec<u8>, bytes: &[u8]) -> Result<usize, Broken>
    ensures count { IfOk result (λ n. n ≡ length bytes.now) }
    ensures items { IfOk result (λ n. vector.new.items ≡ vector.old.items ++ take n bytes.now) }
    ensures none { IsErr result → vector.new.items ≡ vector.old.items }
{
    match vector.extend_from_slice(bytes) {
        Ok(()) => Ok(bytes.len()),
        Err(_) => Err(Broken),
    }
}
