//! What captures are read from: bytes of the caller's, and standard input.
ghost use Rattle.std.specs.Prelude.{◌≡◌, ◌≤◌, ◌<◌, ◌++◌, ◌-◌, [], take, drop, length, true, false, None, Some, IfOk};
ghost use Rattle.std.specs.Prelude.{min};

use cap_bytes::{Broken, Device, Source, Tracked};
use std::cmp::min;
use std::io::Stdin;

/// Bytes that are in memory.
#[derive(Drop)]
pub struct Slice<'a> {
    rest: &'a [u8],
}

impl<'a> Slice<'a> {
    ghost use Rattle.capt_c.specs.Sources.{rest_of};

    /// A reader of those bytes.
    pub fn new(bytes: &'a [u8]) -> Slice<'a>
        ensures { rest_of result ≡ bytes.now }
    {
        Slice { rest: bytes }
    }
}

impl<'a> Device for Slice<'a> {
    ghost has_failed = { λ _. false };

    ghost can_fail = { λ _. false };

    fn failed(&self) -> bool {
        false
    }
}

impl<'a> Source for Slice<'a> {
    ghost tells_coming = { λ _. true };

    ghost coming = { λ s. s.rest.now };

    ghost most = { λ _. None };

    fn take(&mut self, buffer: &mut [u8]) -> Result<usize, Broken> {
        let count = min(buffer.len(), self.rest.len());
        let (front, rest) = self.rest.split_at(count);
        let (room, _) = buffer.split_at_mut(count);
        room.copy_from_slice(front);
        self.rest = rest;
        Ok(count)
    }
}

/// What a reader of packets reads.
#[derive(Drop)]
pub enum CaptureInput {
    /// Bytes that stay as they are while they are read.
    Memory(Slice<'static>),
    /// Standard input.
    Standard(Tracked<Stdin>),
}

impl Device for CaptureInput {
    ghost use Rattle.capt_c.specs.Sources.{has_failed_of, input_can_fail};

    ghost has_failed = { has_failed_of };

    ghost can_fail = { input_can_fail };

    fn failed(&self) -> bool {
        match self {
            CaptureInput::Memory(slice) => slice.failed(),
            CaptureInput::Standard(stream) => stream.failed(),
        }
    }
}

impl Source for CaptureInput {
    ghost use Rattle.std.specs.Prelude.{None};
    ghost use Rattle.capt_c.specs.Sources.{tells_of, input_coming};

    ghost tells_coming = { tells_of };

    ghost coming = { input_coming };

    ghost most = { λ _. None };

    fn take(&mut self, buffer: &mut [u8]) -> Result<usize, Broken> {
        match self {
            CaptureInput::Memory(slice) => slice.take(buffer),
            CaptureInput::Standard(stream) => stream.take(buffer),
        }
    }
}
