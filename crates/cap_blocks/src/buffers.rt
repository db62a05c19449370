//! A buffer in which the fixed parts of a block are put together.
ghost use Rattle.std.specs.Prelude.{◌≡◌, ◌+◌, ◌≤◌, ◌++◌, [], length, take};
ghost use Rattle.cap_bytes.specs.Number.{bytes_of};

use cap_bytes::{Order, put_u16, put_u32, put_u64};
use std::marker::Model;

/// A block that is put together, or its first or last bytes: 160 at most.
#[derive(Drop)]
pub struct BlockBuffer {
    bytes: [u8; 160],
    length: usize,
}

impl Model for BlockBuffer {
    ghost use Rattle.std.specs.Prelude.{◌≤◌, ℕ, List, take};

    ghost Value = { List ℕ };

    ghost view = { λ t. take t.length t.bytes };

    ghost invariant = { λ t. t.length ≤ 160 };
}

impl BlockBuffer {
    /// A buffer without bytes.
    pub fn new() -> BlockBuffer
        ensures { result ≡ [] }
    {
        BlockBuffer {
            bytes: [0; 160],
            length: 0,
        }
    }

    /// The bytes that were put into it.
    pub fn bytes(&self) -> &[u8]
        ensures { result.now ≡ self.now }
    {
        self.bytes.split_at(self.length).0
    }

    /// Puts bytes after those that stand.
    pub fn add(&mut self, bytes: &[u8])
        requires { length self.old + length bytes.now ≤ 160 }
        ensures bytes { self.new ≡ self.old ++ bytes.now }
        ensures size { length self.new ≡ length self.old + length bytes.now }
    {
        copy_to(&mut self.bytes, self.length, bytes);
        self.length += bytes.len();
    }

    /// Puts a number of 2 bytes after those that stand.
    pub fn add_u16(&mut self, order: Order, number: u16)
        requires { length self.old + 2 ≤ 160 }
        ensures bytes { self.new ≡ self.old ++ bytes_of order 2 number }
        ensures size { length self.new ≡ length self.old + 2 }
    {
        put_u16(order, &mut self.bytes, self.length, number);
        self.length += 2;
    }

    /// Puts a number of 4 bytes after those that stand.
    pub fn add_u32(&mut self, order: Order, number: u32)
        requires { length self.old + 4 ≤ 160 }
        ensures bytes { self.new ≡ self.old ++ bytes_of order 4 number }
        ensures size { length self.new ≡ length self.old + 4 }
    {
        put_u32(order, &mut self.bytes, self.length, number);
        self.length += 4;
    }

    /// Puts a number of 8 bytes after those that stand.
    pub fn add_u64(&mut self, order: Order, number: u64)
        requires { length self.old + 8 ≤ 160 }
        ensures bytes { self.new ≡ self.old ++ bytes_of order 8 number }
        ensures size { length self.new ≡ length self.old + 8 }
    {
        put_u64(order, &mut self.bytes, self.length, number);
        self.length += 8;
    }
}

// Puts bytes at a place of a buffer.
fn copy_to(buffer: &mut [u8], place: usize, bytes: &[u8])
    requires { place + length bytes.now ≤ length buffer.old }
    ensures { take (place + length bytes.now) buffer.new ≡ take place buffer.old ++ bytes.now }
{
    let (_, rest) = buffer.split_at_mut(place);
    let (room, _) = rest.split_at_mut(bytes.len());
    room.copy_from_slice(bytes);
}
