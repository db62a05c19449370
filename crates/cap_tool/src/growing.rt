//! A line that is written into memory.
ghost use Rattle.std.specs.Prelude.{◌≡◌, ◌<◌, ◌≤◌, ◌++◌, take, length, true, IfOk, IsErr};

use cap_bytes::{Broken, Device, Sink};
use std::alloc::Global;

/// A writer into a vector, which grows. It fails if a growth is refused.
#[derive(Drop)]
pub struct Growing {
    bytes: Vec<u8>,
    failed: bool,
}

impl Growing {
    ghost use Rattle.std.specs.Prelude.{[], false};

    /// A writer into a vector that is empty.
    pub fn new(alloc: Global) -> Growing
        ensures held { ⟦<Growing as Sink>⟧.held result ≡ [] }
        ensures fresh { ⟦<Growing as Device>⟧.has_failed result ≡ false }
    {
        Growing {
            bytes: Vec::new(alloc),
            failed: false,
        }
    }

    /// What was written.
    pub fn bytes(&self) -> &[u8]
        ensures { result.now ≡ ⟦<Growing as Sink>⟧.held self.now }
    {
        &self.bytes
    }
}

impl Device for Growing {
    ghost has_failed = { λ g. g.failed };

    ghost can_fail = { λ _. true };

    fn failed(&self) -> bool {
        self.failed
    }
}

impl Sink for Growing {
    ghost use Rattle.std.specs.Prelude.{true};

    ghost tells_held = { λ _. true };

    ghost held = { λ g. g.bytes.items };

    fn give(&mut self, bytes: &[u8]) -> Result<usize, Broken> {
        let answer = append(&mut self.bytes, bytes);
        self.failed = self.failed || answer.is_err();
        answer
    }
}

// Appends the bytes, and returns how many they are.
fn append(vector: &mut Vec<u8>, bytes: &[u8]) -> Result<usize, Broken>
    ensures count { IfOk result (λ n. n ≡ length bytes.now) }
    ensures items { IfOk result (λ n. vector.new.items ≡ vector.old.items ++ take n bytes.now) }
    ensures none { IsErr result → vector.new.items ≡ vector.old.items }
{
    match vector.extend_from_slice(bytes) {
        Ok(()) => Ok(bytes.len()),
        Err(_) => Err(Broken),
    }
}
