//! The buffers of closed groups, kept for later ones.
ghost use Rattle.std.specs.Prelude.{◌≡◌, [], ◌*◌, ◌^◌, ◌<◌, ◌≤◌, length, map, sum};
ghost use Rattle.cap_join.specs.inner.BufferPool.{with_spare, spare_limit};

use crate::groups::Group;
use std::alloc::{AllocError, Global};
use std::marker::Model;

// At most as many as groups may be open.
const SPARE_LIMIT: usize = 1024;

/// Spare buffers. A new group takes one without clearing it, since it sets each byte before it reads it. So each byte
/// of a buffer is cleared once, not once a group.
#[derive(Drop)]
pub(crate) struct BufferPool {
    buffers: Vec<Vec<u8>>,
}

impl Model for BufferPool {
    ghost use Rattle.cap_join.specs.inner.BufferPool.{SpareState};

    ghost Value = { SpareState };

    ghost use Rattle.cap_join.specs.inner.BufferPoolView.{spares_view, IsSoundSpares};

    ghost view = { spares_view };

    ghost invariant = { IsSoundSpares };
}

// The sum of the buffers' lengths.
fn bytes_of(buffers: &Vec<Vec<u8>>) -> usize
    requires { sum (map (λ b. length b.items) buffers.now.items) < 2 ^ 64 }
    ensures { result ≡ sum (map (λ b. length b.items) buffers.now.items) }
{
    buffers.iter().map(|buffer| buffer.len()).sum()
}

impl BufferPool {
    /// No buffer, and no place for one yet.
    pub(crate) fn new(alloc: Global) -> BufferPool
        ensures { result.lengths ≡ [] }
    {
        BufferPool {
            buffers: Vec::new(alloc),
        }
    }

    /// Allocates a place for each that may be kept, so that giving one back needs no memory.
    pub(crate) fn reserve(&mut self) -> Result<(), AllocError>
        ensures { self.new.lengths ≡ self.old.lengths }
    {
        self.buffers.reserve_exact(SPARE_LIMIT - self.buffers.len())
    }

    /// Takes the buffer that was given back last. If there is none, returns a new one, which is empty.
    pub(crate) fn take(&mut self, alloc: Global) -> Vec<u8>
        ensures back { with_spare (length result.items) self.new ≡ self.old }
        ensures bound { length result.items ≤ 65520 }
    {
        match self.buffers.pop() {
            None => Vec::new(alloc),
            Some(buffer) => buffer,
        }
    }

    /// Keeps a buffer, unless it is empty or there is no place for it.
    pub(crate) fn give_back(&mut self, buffer: Vec<u8>)
        requires { length buffer.items ≤ 65520 }
        ensures { self.new ≡ with_spare (length buffer.items) self.old }
    {
        if buffer.is_empty() {
            return;
        }
        if self.buffers.len() < self.buffers.capacity().min(SPARE_LIMIT) {
            self.buffers.push_reserved(buffer);
        }
    }

    /// The sum of their lengths.
    pub(crate) fn bytes(&self) -> usize
        ensures value { result ≡ sum self.now.lengths }
        ensures bound { result ≤ spare_limit * 65520 }
    {
        bytes_of(&self.buffers)
    }
}

/// Gives a closed group's buffer back.
pub(crate) fn keep_buffer(spares: &mut BufferPool, group: Option<Group>) {
    if let Some(group) = group {
        spares.give_back(group.into_buffer());
    }
}
