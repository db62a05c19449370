//! The holes of a group's buffer, written into the holes themselves (RFC 815, 3 and 4).
//!
//! A hole is some blocks of 8 bytes that no fragment has filled, and its first 8 bytes describe it: the
//! place after its last byte and where the next hole begins. RFC 815 links the holes both ways, in any
//! order, and has a last hole without an end. Here they rise, none links back, and what lies past the
//! buffer's end is no hole; and a cursor, which RFC 815 doesn't have, names the hole where the last walk
//! ended. A fragment is put in these steps:
//!
//! 1. if it ends past the buffer's end, this grows, and what is added becomes the last hole;
//! 2. the holes below it are walked over and only read, from the cursor on or else from the first;
//! 3. each hole that it covers a part of loses those blocks, which become 0, and what is left on either
//!    side is described anew;
//! 4. its data is copied, also over bytes of earlier fragments.
ghost use Rattle.std.specs.Prelude.{◌≡◌, ℕ, List, ◌+◌, ◌-◌, ◌<◌, ◌≤◌, ◌%◌, ◌^◌, length, slice_index, IsTrue, IfSome};
ghost use Rattle.cap_join.specs.Holes.{Span, word_at, IsChain, HasHoles, BeginsHole, HasCursor, IsBefore};
ghost use Rattle.cap_join.specs.Holes.{ChangesWithin};
ghost use Rattle.cap_join.specs.Holes.{kept_hole, Punched, Continues, Appended};

use cap_bytes::{Order, put_u32, u32_at};

/// What names no hole.
pub(crate) const NO_HOLE: u32 = 4_294_967_295;

/// Where the holes of a buffer begin, and the cursor: the last hole below the fragment that was put last, or none. A
/// walk to a place after it begins there.
#[derive(Clone, Copy)]
pub(crate) struct HoleList {
    pub(crate) first: u32,
    pub(crate) cursor: u32,
}

// The little-endian number of 32 bits at a place.
#[tactic(auto, unfolding(crate::specs::Holes::word_at))]
fn word_at(bytes: &[u8], at: usize) -> u32
    requires { at + 4 ≤ length bytes.now }
    ensures { result ≡ word_at bytes.now at }
{
    u32_at(Order::Little, bytes, at)
}

// Writes a number of 32 bits at a place, little-endian.
#[tactic(auto, unfolding(crate::specs::Holes::word_at))]
fn put_word(bytes: &mut [u8], at: usize, value: u32)
    requires { at + 4 ≤ length bytes.old }
    ensures word { word_at bytes.new at ≡ value }
    ensures within { ChangesWithin at (at + 4) bytes.old bytes.new }
{
    put_u32(Order::Little, bytes, at, value);
}

// Describes the part of a hole from a place up to another, if there is one, with the next hole after
// it, and returns where the holes begin now.
fn keep(bytes: &mut [u8], from: u32, to: u32, next: u32) -> u32
    requires within { to ≤ length bytes.old }
    requires begins { from % 8 ≡ 0 }
    requires ends { to % 8 ≡ 0 }
    ensures within { ChangesWithin from to bytes.old bytes.new }
    ensures place { from < to → result ≡ from }
    ensures chain { (low middle high : ℕ) (ss : List Span) → low ≤ from → low ≤ middle → to ≤ middle → to ≤ high →
        IsChain bytes.old middle high next ss → IsChain bytes.new low high result (kept_hole from to ss) }
{
    if from < to {
        let at = from as usize;
        put_word(bytes, at, to);
        put_word(bytes, at + 4, next);
        from
    } else {
        next
    }
}

// Sets the bytes from a place up to another to 0.
fn clear(bytes: &mut [u8], from: usize, to: usize)
    requires { to ≤ length bytes.old }
    ensures within { ChangesWithin from to bytes.old bytes.new }
    ensures zeros { (i : ℕ) → from ≤ i → i < to → slice_index bytes.new i ≡ 0 }
{
    for i in from..to {
        bytes[i] = 0;
    }
}

// Copies data to a place.
pub(crate) fn copy(bytes: &mut [u8], at: usize, piece: &[u8])
    requires { at + length piece.now ≤ length bytes.old }
    ensures within { ChangesWithin at (at + length piece.now) bytes.old bytes.new }
    ensures copied { (i : ℕ) → at ≤ i → i < at + length piece.now
        → slice_index bytes.new i ≡ slice_index piece.now (i - at) }
{
    for i in 0..piece.len() {
        bytes[at + i] = piece[i];
    }
}

// Whether a hole lies below a place whole.
fn lies_below(bytes: &[u8], at: u32, below: u32) -> bool
    requires { at < below → at + 8 ≤ length bytes.now }
    ensures { IsTrue result → (at < below) × (word_at bytes.now at ≤ below) }
{
    if at >= below {
        return false;
    }
    word_at(bytes, at as usize) <= below
}

// The hole after one, if it lies below a place whole.
fn next_below(bytes: &[u8], at: u32, below: u32) -> Option<u32>
    requires within { at + 8 ≤ length bytes.now }
    requires next { word_at bytes.now (at + 4) < below → word_at bytes.now (at + 4) + 8 ≤ length bytes.now }
    ensures { IfSome result (λ next. (next ≡ word_at bytes.now (at + 4)) × (next < below)
        × (word_at bytes.now next ≤ below)) }
{
    let next = word_at(bytes, at as usize + 4);
    if !lies_below(bytes, next, below) {
        return None;
    }
    Some(next)
}

// The last of some holes that lies below a place whole; the first does.
fn last_below(bytes: &[u8], at: u32, below: u32) -> u32
    requires holes { HasHoles bytes.now (length bytes.now) at }
    requires first { at < below }
    requires whole { word_at bytes.now at ≤ below }
    requires within { below ≤ length bytes.now }
    requires short { length bytes.now < 2 ^ 17 }
    ensures first { result < below }
    ensures whole { word_at bytes.now result ≤ below }
    ensures begins { (low high : ℕ) (ss : List Span) → IsChain bytes.now low high at ss → BeginsHole below result ss }
{
    let mut last = at;
    while let Some(next) = next_below(bytes, last, below) {
        last = next;
    }
    last
}

// Where a walk to a place may begin: at the cursor, or else at the first hole, if that lies below the place whole.
fn start_below(bytes: &[u8], holes: HoleList, below: u32) -> Option<u32>
    requires holes { HasHoles bytes.now (length bytes.now) holes.first }
    requires cursor { HasCursor bytes.now (length bytes.now) holes.first holes.cursor }
    requires within { below ≤ length bytes.now }
    requires short { length bytes.now < 2 ^ 17 }
    ensures { IfSome result (λ at. IsBefore bytes.now holes.first below at) }
{
    if lies_below(bytes, holes.cursor, below) {
        return Some(holes.cursor);
    }
    if lies_below(bytes, holes.first, below) {
        return Some(holes.first);
    }
    None
}

// The last hole that lies below a place whole. `None` only if the first one doesn't.
fn last_before(bytes: &[u8], holes: HoleList, below: u32) -> Option<u32>
    requires holes { HasHoles bytes.now (length bytes.now) holes.first }
    requires cursor { HasCursor bytes.now (length bytes.now) holes.first holes.cursor }
    requires within { below ≤ length bytes.now }
    requires short { length bytes.now < 2 ^ 17 }
    ensures { IfSome result (λ at. IsBefore bytes.now holes.first below at) }
{
    match start_below(bytes, holes, below) {
        None => None,
        Some(at) => Some(last_below(bytes, at, below)),
    }
}

// The end of the hole at a place, if it lies in a range whole.
fn covered_end(bytes: &[u8], at: u32, from: u32, to: u32) -> Option<u32>
    requires { at < to → at + 8 ≤ length bytes.now }
    ensures { IfSome result (λ end. (end ≡ word_at bytes.now at) × (from ≤ at) × (at < to) × (end ≤ to)) }
{
    if at >= to {
        return None;
    }
    if at < from {
        return None;
    }
    let end = word_at(bytes, at as usize);
    if end > to {
        return None;
    }
    Some(end)
}

// Fills those of some holes that lie in a range whole, up to the first that doesn't. Returns where the others begin.
fn cover(bytes: &mut [u8], at: u32, from: u32, to: u32) -> u32
    requires holes { HasHoles bytes.old (length bytes.old) at }
    requires within { to ≤ length bytes.old }
    requires short { length bytes.old < 2 ^ 17 }
    ensures holes { HasHoles bytes.new (length bytes.new) result }
    ensures rises { at ≤ result }
    ensures stays { at < from → (result ≡ at) × (bytes.new ≡ bytes.old) }
    ensures punched { Continues from to bytes.old at bytes.new result }
{
    let mut first = at;
    while let Some(end) = covered_end(bytes, first, from, to) {
        let next = word_at(bytes, first as usize + 4);
        clear(bytes, first as usize, end as usize);
        first = next;
    }
    first
}

// Fills a range of whole blocks: each hole loses what lies in it, which becomes 0. Returns where the
// holes begin now. A first hole that lies below the range stays where it is.
fn punch(bytes: &mut [u8], at: u32, from: u32, to: u32) -> u32
    requires holes { HasHoles bytes.old (length bytes.old) at }
    requires begins { from % 8 ≡ 0 }
    requires ends { to % 8 ≡ 0 }
    requires some { from < to }
    requires within { to ≤ length bytes.old }
    requires short { length bytes.old < 2 ^ 17 }
    ensures punched { (low : ℕ) (ss : List Span) → IsChain bytes.old low (length bytes.old) at ss →
        Punched from to bytes.old ss low (length bytes.old) result bytes.new }
    ensures stays { at < from → word_at bytes.old at ≤ from → result ≡ at }
{
    let at = cover(bytes, at, from, to);
    if at >= to {
        return at;
    }
    let end = word_at(bytes, at as usize);
    let next = word_at(bytes, at as usize + 4);
    let rest = punch(bytes, next, from, to);
    clear(bytes, at.max(from) as usize, end.min(to) as usize);
    let right = keep(bytes, to, end, rest);
    keep(bytes, at, end.min(from), right)
}

/// Fills a range of whole blocks: each hole loses what lies in it, which becomes 0. The holes that lie below it are
/// only read, from the cursor on if that is one of them.
pub(crate) fn fill(bytes: &mut [u8], holes: HoleList, from: u32, to: u32) -> HoleList
    requires holes { HasHoles bytes.old (length bytes.old) holes.first }
    requires cursor { HasCursor bytes.old (length bytes.old) holes.first holes.cursor }
    requires begins { from % 8 ≡ 0 }
    requires ends { to % 8 ≡ 0 }
    requires some { from < to }
    requires within { to ≤ length bytes.old }
    requires short { length bytes.old < 2 ^ 17 }
    ensures punched { (ss : List Span) → IsChain bytes.old 0 (length bytes.old) holes.first ss →
        Punched from to bytes.old ss 0 (length bytes.old) result.first bytes.new }
    ensures cursor { HasCursor bytes.new (length bytes.new) result.first result.cursor }
{
    match last_before(bytes, holes, from) {
        None => HoleList {
            first: punch(bytes, holes.first, from, to),
            cursor: NO_HOLE,
        },
        Some(last) => {
            punch(bytes, last, from, to);
            HoleList {
                first: holes.first,
                cursor: last,
            }
        }
    }
}

// Describes the bytes from a place on as the last hole, and returns where the holes begin now.
fn append_hole(bytes: &mut [u8], at: u32, from: u32) -> u32
    requires holes { HasHoles bytes.old from at }
    requires begins { from % 8 ≡ 0 }
    requires ends { length bytes.old % 8 ≡ 0 }
    requires some { from < length bytes.old }
    requires short { length bytes.old < 2 ^ 17 }
    ensures appended { (low : ℕ) (ss : List Span) → low ≤ from → IsChain bytes.old low from at ss →
        Appended bytes.old ss low from result bytes.new }
    ensures stays { at < from → result ≡ at }
{
    if at >= from {
        return keep(bytes, from, bytes.len() as u32, NO_HOLE);
    }
    let end = word_at(bytes, at as usize);
    let next = word_at(bytes, at as usize + 4);
    let rest = append_hole(bytes, next, from);
    keep(bytes, at, end, rest)
}

/// Describes the bytes from a place on as the last hole. The holes before the last one are only read, from the cursor
/// on.
pub(crate) fn add_hole(bytes: &mut [u8], holes: HoleList, from: u32) -> HoleList
    requires holes { HasHoles bytes.old from holes.first }
    requires cursor { HasCursor bytes.old from holes.first holes.cursor }
    requires begins { from % 8 ≡ 0 }
    requires ends { length bytes.old % 8 ≡ 0 }
    requires some { from < length bytes.old }
    requires short { length bytes.old < 2 ^ 17 }
    ensures appended { (ss : List Span) → IsChain bytes.old 0 from holes.first ss →
        Appended bytes.old ss 0 from result.first bytes.new }
    ensures cursor { HasCursor bytes.new (length bytes.new) result.first result.cursor }
{
    match last_before(bytes, holes, from) {
        None => HoleList {
            first: append_hole(bytes, holes.first, from),
            cursor: NO_HOLE,
        },
        Some(last) => {
            append_hole(bytes, last, from);
            HoleList {
                first: holes.first,
                cursor: last,
            }
        }
    }
}
