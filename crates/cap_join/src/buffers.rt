//! The buffer of a group of fragments.
ghost use Rattle.std.specs.Prelude.{◌≡◌, ℕ, List, ◌∷◌, ◌+◌, ◌*◌, ◌<◌, ◌≤◌, ◌%◌, length, take, max, IfOk, OnOk, OnErr};
ghost use Rattle.cap_join.specs.Holes.{Span, IsChain, HasHoles, HasCursor};
ghost use Rattle.cap_join.specs.Fragments.{Piece, IsShapedFragment};
ghost use Rattle.cap_join.specs.inner.Buffers.{Maps, Grown};

use crate::holes::{HoleList, add_hole, copy, fill};
use std::alloc::AllocError;

/// The front of a buffer that a group holds: its length, and its holes. The bytes after it are zeros, or left from an
/// earlier group.
#[derive(Clone, Copy)]
pub(crate) struct BufferPart {
    pub(crate) held: u32,
    pub(crate) holes: HoleList,
}

// Lengthens a buffer to a size at least. An `Err` changes nothing.
fn lengthen(buffer: &mut Vec<u8>, size: u32) -> Result<(), AllocError>
    ensures ok { OnOk result (length buffer.new.items ≡ max (length buffer.old.items) size) }
    ensures front { OnOk result ((n : ℕ) → n ≤ length buffer.old.items
        → take n buffer.new.items ≡ take n buffer.old.items) }
    ensures err { OnErr result (buffer.new.items ≡ buffer.old.items) }
{
    if size as usize <= buffer.len() {
        return Ok(());
    }
    buffer.resize(size as usize, 0)
}

// Extends the part that a group holds to all of some bytes. What it adds is a hole. Returns the holes.
fn grow(bytes: &mut [u8], part: BufferPart, size: u32) -> HoleList
    requires holes { HasHoles (take part.held bytes.old) part.held part.holes.first }
    requires cursor { HasCursor (take part.held bytes.old) part.held part.holes.first part.holes.cursor }
    requires whole { part.held % 8 ≡ 0 }
    requires blocks { size % 8 ≡ 0 }
    requires all { length bytes.old ≡ max part.held size }
    requires short { length bytes.old ≤ 65520 }
    ensures grown { (ss : List Span) → IsChain (take part.held bytes.old) 0 part.held part.holes.first ss →
        Grown size (take part.held bytes.old) ss result.first bytes.new }
    ensures cursor { HasCursor bytes.new (length bytes.new) result.first result.cursor }
{
    if size <= part.held {
        return part.holes;
    }
    add_hole(bytes, part.holes, part.held)
}

// Puts a fragment's data into bytes that are long enough. Its last block ends at `end`. Returns the holes.
fn put_piece(bytes: &mut [u8], part: BufferPart, start: u32, end: u32, piece: &[u8]) -> HoleList
    requires holes { HasHoles (take part.held bytes.old) part.held part.holes.first }
    requires cursor { HasCursor (take part.held bytes.old) part.held part.holes.first part.holes.cursor }
    requires whole { part.held % 8 ≡ 0 }
    requires all { length bytes.old ≡ max part.held end }
    requires short { length bytes.old ≤ 65520 }
    requires begins { start % 8 ≡ 0 }
    requires ends { end % 8 ≡ 0 }
    requires some { 0 < length piece.now }
    requires within { start + length piece.now ≤ end }
    requires last { end < start + length piece.now + 8 }
    ensures maps { (p : Piece) (ps : List Piece) → p.start ≡ start → p.bytes ≡ piece.now → IsShapedFragment p →
        Maps (take part.held bytes.old) part.holes.first ps → Maps bytes.new result.first (p ∷ ps) }
    ensures cursor { HasCursor bytes.new (length bytes.new) result.first result.cursor }
{
    let holes = grow(bytes, part, end);
    let holes = fill(bytes, holes, start, end);
    copy(bytes, start as usize, piece);
    holes
}

// Puts a fragment's data into the first `held` bytes of a buffer.
fn put_front(
    buffer: &mut [u8],
    held: u32,
    part: BufferPart,
    start: u32,
    end: u32,
    piece: &[u8],
) -> HoleList
    requires holes { HasHoles (take part.held buffer.old) part.held part.holes.first }
    requires cursor { HasCursor (take part.held buffer.old) part.held part.holes.first part.holes.cursor }
    requires whole { part.held % 8 ≡ 0 }
    requires all { held ≡ max part.held end }
    requires room { held ≤ length buffer.old }
    requires short { held ≤ 65520 }
    requires begins { start % 8 ≡ 0 }
    requires ends { end % 8 ≡ 0 }
    requires some { 0 < length piece.now }
    requires within { start + length piece.now ≤ end }
    requires last { end < start + length piece.now + 8 }
    ensures maps { (p : Piece) (ps : List Piece) → p.start ≡ start → p.bytes ≡ piece.now → IsShapedFragment p →
        Maps (take part.held buffer.old) part.holes.first ps → Maps (take held buffer.new) result.first (p ∷ ps) }
    ensures cursor { HasCursor (take held buffer.new) held result.first result.cursor }
{
    let (bytes, _) = buffer.split_at_mut(held as usize);
    put_piece(bytes, part, start, end, piece)
}

/// Puts a fragment's data into a buffer, which grows if the data ends after it. Returns the part that the group holds
/// then. An `Err` changes nothing.
pub(crate) fn put_data(
    buffer: &mut Vec<u8>,
    part: BufferPart,
    start: u32,
    piece: &[u8],
) -> Result<BufferPart, AllocError>
    requires holes { HasHoles (take part.held buffer.old.items) part.held part.holes.first }
    requires cursor { HasCursor (take part.held buffer.old.items) part.held part.holes.first part.holes.cursor }
    requires whole { part.held % 8 ≡ 0 }
    requires held { part.held ≤ length buffer.old.items }
    requires bounded { length buffer.old.items ≤ 65520 }
    requires begins { start % 8 ≡ 0 }
    requires some { 0 < length piece.now }
    requires within { start + length piece.now ≤ 65515 }
    ensures maps { IfOk result (λ at. (p : Piece) (ps : List Piece) → p.start ≡ start → p.bytes ≡ piece.now
        → IsShapedFragment p →
        Maps (take part.held buffer.old.items) part.holes.first ps
        → Maps (take at.held buffer.new.items) at.holes.first (p ∷ ps)) }
    ensures cursor { IfOk result
        (λ at. HasCursor (take at.held buffer.new.items) at.held at.holes.first at.holes.cursor) }
    ensures held { IfOk result (λ at. at.held ≤ length buffer.new.items) }
    ensures bounded { length buffer.new.items ≤ 65520 }
    ensures longer { length buffer.old.items ≤ length buffer.new.items }
    ensures err { OnErr result (buffer.new.items ≡ buffer.old.items) }
{
    let end = (start + piece.len() as u32).div_ceil(8) * 8;
    let held = part.held.max(end);
    lengthen(buffer, held)?;
    let holes = put_front(buffer.as_mut_slice(), held, part, start, end, piece);
    Ok(BufferPart { held, holes })
}
