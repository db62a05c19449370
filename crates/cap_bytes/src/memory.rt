//! Devices over memory, which cut and fail as asked.
ghost use Rattle.std.specs.Prelude.{◌≡◌, ◌≤◌, ◌<◌, ◌++◌, [], take, drop, length, true, false, Some, is_some, vec_len};
ghost use Rattle.std.specs.Prelude.{vec_capacity, min, ◌-◌, ◌||◌, IfOk, IsErr, IsTrue, is_err, ◌↔◌};
ghost use Rattle.cap_bytes.specs.Device.{Gives, Takes};
ghost use Rattle.cap_bytes.specs.inner.Calls.{one_call_less};

use crate::devices::{Broken, Device, Sink, Source};
use std::cmp::min;

/// A reader of a vector. It gives at most `piece` bytes at a time, and may fail at one call.
#[derive(Drop)]
pub struct Pieces {
    bytes: Vec<u8>,
    at: usize,
    piece: usize,
    failing: Option<u64>,
    failed: bool,
    ghost within: { at ≤ vec_len bytes },
    ghost some: { 1 ≤ piece },
}

impl Pieces {
    /// A reader of `bytes` by at most `piece` a call. The call number `failing`, from 1, fails and
    /// takes nothing; those after it go on.
    pub fn new(bytes: Vec<u8>, piece: usize, failing: Option<u64>) -> Pieces
        requires { 1 ≤ piece }
        ensures coming { ⟦<Pieces as Source>⟧.coming result ≡ bytes.items }
        ensures most { ⟦<Pieces as Source>⟧.most result ≡ Some piece }
        ensures fresh { ⟦<Pieces as Device>⟧.has_failed result ≡ false }
        ensures can_fail { ⟦<Pieces as Device>⟧.can_fail result ≡ is_some failing }
    {
        Pieces {
            bytes,
            at: 0,
            piece,
            failing,
            failed: false,
        }
    }
}

impl Device for Pieces {
    ghost has_failed = { λ p. p.failed };

    ghost can_fail = { λ p. is_some p.failing };

    fn failed(&self) -> bool {
        self.failed
    }
}

impl Source for Pieces {
    ghost tells_coming = { λ _. true };

    ghost coming = { λ p. drop p.at p.bytes.items };

    ghost most = { λ p. Some p.piece };

    #[tactic(auto, using(crate::proofs::Lists::drop_more))]
    fn take(&mut self, buffer: &mut [u8]) -> Result<usize, Broken>
        ensures fails { IsErr result ↔ (self.old.failing ≡ Some 1) }
        ensures calls { self.new.failing ≡ one_call_less self.old.failing }
        ensures count { IfOk result (λ n. n ≤ length buffer.new) }
        ensures few { IfOk result (λ n. n ≤ self.old.piece) }
        ensures most { self.new.piece ≡ self.old.piece }
        ensures bytes { Takes (drop self.old.at self.old.bytes.items) result
            (drop self.new.at self.new.bytes.items) buffer.new }
        ensures failed { self.new.failed ≡ (self.old.failed || is_err result) }
        ensures can { IsErr result → IsTrue (is_some self.old.failing) }
        ensures cannot { IsTrue (is_some self.new.failing) → IsTrue (is_some self.old.failing) }
    {
        let fails = self.failing == Some(1);
        self.failing = one_call_less(self.failing);
        if fails {
            self.failed = true;
            return Err(Broken);
        }
        let (_, rest) = self.bytes.split_at(self.at);
        let count = copy_front(rest, self.piece, buffer);
        self.at += count;
        Ok(count)
    }
}

// Which of the calls fails, from 1, after one of them.
fn one_call_less(failing: Option<u64>) -> Option<u64>
    ensures { result ≡ one_call_less failing }
{
    match failing {
        None | Some(1) => None,
        Some(call) => Some(call.saturating_sub(1)),
    }
}

// Puts the first bytes of `rest`, at most `most`, at the front of `buffer`, and returns how many.
fn copy_front(rest: &[u8], most: usize, buffer: &mut [u8]) -> usize
    ensures within { result ≤ length rest.now }
    ensures front { rest.now ≡ take result buffer.new ++ drop result rest.now }
    ensures none { result ≡ 0 → 0 < length buffer.old → 0 < most → rest.now ≡ [] }
    ensures count { result ≤ length buffer.new }
    ensures most { result ≤ most }
{
    let count = min(min(most, buffer.len()), rest.len());
    let (front, _) = rest.split_at(count);
    let (room, _) = buffer.split_at_mut(count);
    room.copy_from_slice(front);
    count
}

/// A writer into a vector, which takes what the vector's capacity has room for and then fails.
#[derive(Drop)]
pub struct Room {
    bytes: Vec<u8>,
    full: bool,
}

impl Room {
    /// A writer to the end of `bytes`, up to its capacity.
    pub fn new(bytes: Vec<u8>) -> Room
        ensures held { ⟦<Room as Sink>⟧.held result ≡ bytes.items }
        ensures fresh { ⟦<Room as Device>⟧.has_failed result ≡ false }
    {
        Room { bytes, full: false }
    }

    /// The bytes that it holds.
    pub fn bytes(&self) -> &[u8]
        ensures { result.now ≡ ⟦<Room as Sink>⟧.held self.now }
    {
        &self.bytes
    }
}

impl Device for Room {
    ghost has_failed = { λ r. r.full };

    ghost can_fail = { λ _. true };

    fn failed(&self) -> bool {
        self.full
    }
}

impl Sink for Room {
    ghost tells_held = { λ _. true };

    ghost held = { λ r. r.bytes.items };

    fn give(&mut self, bytes: &[u8]) -> Result<usize, Broken>
        ensures full { IsErr result ↔ ((0 < length bytes.now)
            × (vec_capacity self.old.bytes ≡ vec_len self.old.bytes)) }
        ensures count { IfOk result (λ n. n ≤ length bytes.now) }
        ensures some { IfOk result (λ n. 0 < length bytes.now → 0 < n) }
        ensures bytes { Gives self.old.bytes.items result self.new.bytes.items bytes.now }
        ensures failed { self.new.full ≡ (self.old.full || is_err result) }
    {
        let answer = append(&mut self.bytes, bytes);
        self.full = self.full || answer.is_err();
        answer
    }
}

// Appends as many of the first bytes as the vector's capacity has room for, and returns how many. Fails if there
// are some and it has none.
fn append(vector: &mut Vec<u8>, bytes: &[u8]) -> Result<usize, Broken>
    ensures full { IsErr result ↔ ((0 < length bytes.now) × (vec_capacity vector.old ≡ vec_len vector.old)) }
    ensures count { IfOk result (λ n. n ≡ min (length bytes.now) (vec_capacity vector.old - vec_len vector.old)) }
    ensures items { IfOk result (λ n. vector.new.items ≡ vector.old.items ++ take n bytes.now) }
    ensures none { IsErr result → vector.new ≡ vector.old }
{
    let count = min(bytes.len(), vector.capacity() - vector.len());
    if count == 0 && !bytes.is_empty() || vector.extend_from_slice(&bytes[..count]).is_err() {
        return Err(Broken);
    }
    Ok(count)
}
