//! A buffer that is read into after what it holds.
ghost use Rattle.std.specs.Prelude.{◌≡◌, ◌||◌, ◌+◌, ◌-◌, ◌≤◌, ◌<◌, [], length, take, is_err, IsTrue, IsErr, IfOk};
ghost use Rattle.std.specs.Prelude.{IfSome, OnOk, OnErr, vec_len, slice_range};
ghost use Rattle.cap_bytes.specs.inner.SourceState.{source_of, Reads, IsWithin, Fills, Discards};

use crate::devices::{Broken, Source};
use std::alloc::AllocError;
use std::cmp::{max, min};

/// The most bytes that a buffer holds.
pub const LIMIT: usize = 524_288;

// What a buffer asks for at first, and the least that it makes do with.
const READ_AHEAD: usize = 65_536;

const LEAST: usize = 4_096;

/// How reading up to a number of bytes ended.
#[derive(Clone, Copy)]
pub enum Filling {
    /// They are there.
    Whole,
    /// The input ended first.
    Ended,
    /// The reader failed.
    Failed,
}

// Reads once into the buffer after its first `end` bytes, and returns how many bytes came.
fn take_more<R: Source>(reader: &mut R, buffer: &mut [u8], end: usize) -> Result<usize, Broken>
    requires { end < length buffer.old }
    ensures front { take end buffer.new ≡ take end buffer.old }
    ensures reads { IfOk result (λ n. (end + n ≤ length buffer.new)
        × Reads (source_of R.Source reader.old) (source_of R.Source reader.new)
        (take end buffer.old) (take (end + n) buffer.new)) }
    ensures ended { IfOk result (λ n. n ≡ 0 → IsTrue (R.tells_coming reader.old) → R.coming reader.new ≡ []) }
    ensures few { IfSome (R.most reader.old) (λ most. IfOk result (λ n. n ≤ most)) }
    ensures failed { R.has_failed reader.new ≡ (R.has_failed reader.old || is_err result) }
    ensures can { IsErr result → IsTrue (R.can_fail reader.old) }
    ensures err { OnErr result (Reads (source_of R.Source reader.old) (source_of R.Source reader.new)
        (take end buffer.old) (take end buffer.new)) }
{
    let (_, room) = buffer.split_at_mut(end);
    reader.take(room)
}

// Reads into the buffer after its first `end` bytes until n stand there, and returns how many do.
fn fill<R: Source>(reader: &mut R, buffer: &mut [u8], end: usize, n: usize) -> (usize, Filling)
    requires some { end ≤ n }
    requires room { n ≤ length buffer.old }
    ensures within { result.0 ≤ length buffer.new }
    ensures reads { Reads (source_of R.Source reader.old) (source_of R.Source reader.new)
        (take end buffer.old) (take result.0 buffer.new) }
    ensures asked { end < n → IsWithin (R.most reader.old) n result.0 }
    ensures outcome { Fills n result.0 result.1 (source_of R.Source reader.old) (source_of R.Source reader.new) }
{
    let mut count = end;
    while count < n {
        match take_more(reader, buffer, count) {
            Ok(0) => return (count, Filling::Ended),
            Ok(more) => count += more,
            Err(Broken) => return (count, Filling::Failed),
        }
    }
    (count, Filling::Whole)
}

/// Makes the buffer at least n bytes long. Its first bytes stay. An `Err` changes nothing, and comes
/// only if the buffer is shorter.
pub fn make_room(buffer: &mut Vec<u8>, n: usize) -> Result<(), AllocError>
    requires limit { n ≤ LIMIT }
    requires bounded { vec_len buffer.old ≤ LIMIT }
    ensures room { OnOk result (n ≤ vec_len buffer.new) }
    ensures bounded { vec_len buffer.new ≤ LIMIT }
    ensures grows { vec_len buffer.old ≤ vec_len buffer.new }
    ensures front { take (vec_len buffer.old) buffer.new.items ≡ buffer.old.items }
    ensures full { OnErr result (vec_len buffer.old < n) }
    ensures err { OnErr result (vec_len buffer.new ≡ vec_len buffer.old) }
{
    if n <= buffer.len() {
        return Ok(());
    }
    let ahead = min(max(2 * buffer.len(), READ_AHEAD), LIMIT);
    if buffer.resize(max(n, ahead), 0).is_err() {
        buffer.resize(max(n, LEAST), 0)?;
    }
    Ok(())
}

// Moves the bytes from `start` to `end` to the front of the buffer.
fn move_to_front(buffer: &mut Vec<u8>, start: usize, end: usize)
    requires order { start ≤ end }
    requires within { end ≤ vec_len buffer.old }
    ensures front { take (end - start) buffer.new.items ≡ slice_range buffer.old.items start end }
    ensures len { vec_len buffer.new ≡ vec_len buffer.old }
{
    if start > 0 {
        buffer.copy_within(start..end, 0);
    }
}

/// Reads on until n bytes stand in the buffer after those from `start` to `end`, which move to its
/// front, and returns how many stand there then. An `Err` changes nothing that is held.
pub fn read_on<R: Source>(
    reader: &mut R,
    buffer: &mut Vec<u8>,
    start: usize,
    end: usize,
    n: usize,
) -> Result<(usize, Filling), AllocError>
    requires order { start ≤ end }
    requires within { end ≤ vec_len buffer.old }
    requires fewer { end - start ≤ n }
    requires limit { n ≤ LIMIT }
    requires bounded { vec_len buffer.old ≤ LIMIT }
    ensures within { IfOk result (λ r. r.0 ≤ vec_len buffer.new) }
    ensures room { OnOk result (n ≤ vec_len buffer.new) }
    ensures bounded { vec_len buffer.new ≤ LIMIT }
    ensures grows { vec_len buffer.old ≤ vec_len buffer.new }
    ensures reads { IfOk result (λ r. Reads (source_of R.Source reader.old) (source_of R.Source reader.new)
        (slice_range buffer.old.items start end) (take r.0 buffer.new.items)) }
    ensures asked { end - start < n → IfOk result (λ r. IsWithin (R.most reader.old) n r.0) }
    ensures outcome { IfOk result (λ r. Fills n r.0 r.1 (source_of R.Source reader.old)
        (source_of R.Source reader.new)) }
    ensures full { OnErr result (vec_len buffer.old < n) }
    ensures err { OnErr result ((buffer.new.items ≡ buffer.old.items) × (reader.new ≡ reader.old)) }
{
    make_room(buffer, n)?;
    move_to_front(buffer, start, end);
    Ok(fill(reader, buffer.as_mut_slice(), end - start, n))
}

/// How a number of bytes was dropped from a reader by way of a buffer.
#[derive(Clone, Copy)]
pub struct Discarded {
    /// How many of them are still to be dropped.
    pub left: u64,
    /// Where the bytes after them begin in the buffer,
    pub start: usize,
    /// and where they end.
    pub end: usize,
    pub filling: Filling,
}

/// Drops the next n bytes of a reader, a piece at a time. What was read after them is left in the
/// buffer.
pub fn discard<R: Source>(reader: &mut R, buffer: &mut [u8], n: u64) -> Discarded
    requires some { 0 < length buffer.old }
    ensures within { result.end ≤ length buffer.new }
    ensures order { result.start ≤ result.end }
    ensures fewer { result.left ≤ n }
    ensures cannot { IsTrue (R.can_fail reader.new) → IsTrue (R.can_fail reader.old) }
    ensures told { IsTrue (R.tells_coming reader.old) → IsTrue (R.tells_coming reader.new) }
    ensures most { R.most reader.new ≡ R.most reader.old }
    ensures outcome { Discards n result (source_of R.Source reader.old) (source_of R.Source reader.new)
        (slice_range buffer.new result.start result.end) }
{
    let mut left = n;
    while left > 0 {
        match take_more(reader, buffer, 0) {
            Ok(0) => return at_end(left, Filling::Ended),
            Ok(count) if left <= count as u64 => {
                return Discarded {
                    left: 0,
                    start: left as usize,
                    end: count,
                    filling: Filling::Whole,
                };
            }
            Ok(count) => left -= count as u64,
            Err(Broken) => return at_end(left, Filling::Failed),
        }
    }
    at_end(0, Filling::Whole)
}

// Nothing stands in the buffer.
fn at_end(left: u64, filling: Filling) -> Discarded
    ensures { result ≡ record { left = left; start = 0; end = 0; filling = filling } }
{
    Discarded {
        left,
        start: 0,
        end: 0,
        filling,
    }
}
