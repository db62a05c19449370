//! The row of a conversation: what is counted of its units.
ghost use Rattle.std.specs.Prelude.{◌≡◌, ◌+◌, ◌<◌, ◌^◌, [], true, if◌then◌else◌, Some};
ghost use Rattle.cap_talks.specs.table.Conversations.{is_forward, earlier_frame, later_frame, frame_time, place_or};
ghost use Rattle.cap_talks.specs.table.Conversations.{row_of};
ghost use Rattle.cap_talks.specs.inner.table.Ipv4Units.{frame_delta};
ghost use Rattle.cap_talks.specs.table.CountedUnits.{timed_frame};
ghost use Rattle.cap_talks.specs.table.Rows.{delta_of, with_delta, with_frames, frames_of_row, bytes_of_row, row_frame};
ghost use Rattle.cap_talks.specs.table.Rows.{is_earlier, is_after, is_in_order};

use crate::table::units::{CountedUnit, Endpoint, TimedFrame, timed_frame};
use cap_join::Stamped;
use cap_time::Stamp;
use std::cmp::Ordering;

/// What names a conversation: a protocol and two ends, whichever of them is the source.
#[derive(Clone, Copy)]
pub struct TalkKey {
    /// The number of the protocol: 6 TCP, 17 UDP.
    pub protocol: u8,
    /// The lesser of the two ends.
    pub lesser: Endpoint,
    /// The other end, which is the same if a datagram goes from an end to itself.
    pub greater: Endpoint,
}

/// What is counted of the units of a conversation. What a unit changes stands side by side, whichever way it goes, so
/// that a packet touches as few lines of the processor's memory as it can.
#[derive(Clone, Copy)]
pub struct TalkRow {
    /// The sum of the original lengths, in bytes, of the frames of units from the lesser end, so also of those from an
    /// end to itself.
    pub forward_bytes: u128,
    /// In how many frames the units from the lesser end came.
    pub forward_frames: u64,
    /// The place of the frame of the greatest time, of equal times the lowest.
    pub last_place: u64,
    /// The greatest time of their frames; `None` if no frame has a time.
    pub last: Option<Stamp>,
    /// In how many frames the units from the greater end came.
    pub backward_frames: u64,
    /// The sum of the original lengths of their frames.
    pub backward_bytes: u128,
    /// The least time of the frames of all units; `None` if no frame has a time.
    pub first: Option<Stamp>,
    /// The place of the frame of the least time, of equal times the lowest; 0 if no frame has a time.
    pub first_place: u64,
}

/// What a unit adds to the row of its conversation: all of it but its ends, which need not be kept once the row is
/// found.
#[derive(Clone, Copy)]
pub(crate) struct RowDelta {
    // whether the unit goes from the lesser of its ends, or from an end to itself
    pub(crate) is_forward: bool,
    pub(crate) frames: u64,
    pub(crate) bytes: u128,
    pub(crate) first: Option<TimedFrame>,
    pub(crate) last: Option<TimedFrame>,
}

impl RowDelta {
    // What a unit adds, which goes from the lesser of its ends or not.
    #[inline(always)]
    pub(crate) fn of(unit: &CountedUnit, forward: bool) -> RowDelta
        requires { forward ≡ is_forward unit.now }
        ensures { result ≡ delta_of unit.now }
    {
        RowDelta {
            is_forward: forward,
            frames: unit.frames,
            bytes: unit.bytes,
            first: unit.first,
            last: unit.last,
        }
    }

    // What a unit adds that came in one frame.
    #[inline(always)]
    pub(crate) fn of_frame(forward: bool, frame: Stamped) -> RowDelta
        ensures { result ≡ frame_delta forward frame }
    {
        let timed = timed_frame(Some(frame));
        RowDelta {
            is_forward: forward,
            frames: 1,
            bytes: u128::from(frame.original),
            first: timed,
            last: timed,
        }
    }
}

impl TalkRow {
    // The row of no unit.
    pub(crate) fn new() -> TalkRow
        ensures { result ≡ row_of [] }
    {
        TalkRow {
            forward_bytes: 0,
            forward_frames: 0,
            last_place: 0,
            last: None,
            backward_frames: 0,
            backward_bytes: 0,
            first: None,
            first_place: 0,
        }
    }

    // Counts one unit more.
    #[inline(always)]
    pub(crate) fn take(&mut self, delta: RowDelta)
        requires frames { frames_of_row self.old + delta.frames < 2 ^ 64 }
        requires bytes { bytes_of_row self.old + delta.bytes < 2 ^ 128 }
        requires order { is_in_order self.old ≡ true }
        requires one { delta.frames ≡ 1 → delta.first ≡ delta.last }
        ensures { self.new ≡ with_delta self.old delta }
    {
        if delta.is_forward {
            self.forward_frames += delta.frames;
            self.forward_bytes += delta.bytes;
        } else {
            self.backward_frames += delta.frames;
            self.backward_bytes += delta.bytes;
        }
        take_frames(self, delta);
    }

    // Counts one unit more that came in one frame. It does what `take` does, and reads the frame's time where it is.
    #[inline(always)]
    pub(crate) fn take_frame(&mut self, forward: bool, frame: &Stamped)
        requires frames { frames_of_row self.old + 1 < 2 ^ 64 }
        requires bytes { bytes_of_row self.old + frame.now.original < 2 ^ 128 }
        requires order { is_in_order self.old ≡ true }
        ensures { self.new ≡ with_delta self.old (frame_delta forward frame.now) }
    {
        if forward {
            self.forward_frames += 1;
            self.forward_bytes += u128::from(frame.original);
        } else {
            self.backward_frames += 1;
            self.backward_bytes += u128::from(frame.original);
        }
        take_one(self, frame);
    }
}

// Whether a frame comes before the first one so far: it has the lesser time, of equal times the lower place, or is the
// only one.
#[inline(always)]
fn is_earlier(frame: &TimedFrame, first: &Option<Stamp>, place: u64) -> bool
    ensures { result ≡ is_earlier frame.now (row_frame first.now place) }
{
    match first {
        None => true,
        Some(first) => match frame.time.cmp(first) {
            Ordering::Less => true,
            Ordering::Equal => frame.place < place,
            Ordering::Greater => false,
        },
    }
}

// Takes the first and the last frame of a unit into the least and the greatest time so far. Most units came in one
// frame, which is later than all before it: it isn't compared with the first of those.
#[inline(always)]
fn take_frames(row: &mut TalkRow, delta: RowDelta)
    requires order { is_in_order row.old ≡ true }
    requires one { delta.frames ≡ 1 → delta.first ≡ delta.last }
    ensures { row.new ≡ with_frames row.old delta.first delta.last }
{
    if delta.frames == 1 && goes_on(&mut row.last, &mut row.last_place, &delta.last) {
        return;
    }
    take_both(row, delta.first, delta.last);
}

// Takes the only frame of a unit, as `take_frames` does.
#[inline(always)]
fn take_one(row: &mut TalkRow, frame: &Stamped)
    requires order { is_in_order row.old ≡ true }
    ensures { row.new ≡ with_frames row.old (timed_frame (Some frame.now)) (timed_frame (Some frame.now)) }
{
    if is_next(&mut row.last, &mut row.last_place, frame) {
        return;
    }
    let timed = timed_frame(Some(*frame));
    take_both(row, timed, timed);
}

// Takes a first and a last frame, whatever times they have. It takes copies, and isn't inlined, so that where a frame
// is later than all before it, nothing of it need be in memory.
#[inline(never)]
fn take_both(row: &mut TalkRow, first: Option<TimedFrame>, last: Option<TimedFrame>)
    ensures { row.new ≡ with_frames row.old first last }
{
    take_first(&mut row.first, &mut row.first_place, &first);
    take_last(&mut row.last, &mut row.last_place, &last);
}

// Moves the greatest time so far to that of a frame, if that is later than one that is there. Returns whether it is.
#[inline(always)]
fn goes_on(last: &mut Option<Stamp>, place: &mut u64, frame: &Option<TimedFrame>) -> bool
    ensures later { result ≡ is_after frame.now last.old }
    ensures time { last.new ≡ (if result then frame_time frame.now else last.old) }
    ensures place { place.new ≡ (if result then place_or frame.now place.old else place.old) }
{
    match (last, frame) {
        (Some(last), Some(frame)) => match last.reach(&frame.time) {
            Ordering::Less => {
                *place = frame.place;
                true
            }
            _ => false,
        },
        _ => false,
    }
}

// Does the same with a frame that may have no time.
#[inline(always)]
fn is_next(last: &mut Option<Stamp>, place: &mut u64, frame: &Stamped) -> bool
    ensures later { result ≡ is_after (timed_frame (Some frame.now)) last.old }
    ensures time { last.new ≡ (if result then frame_time (timed_frame (Some frame.now)) else last.old) }
    ensures place { place.new ≡ (if result then place_or (timed_frame (Some frame.now)) place.old else place.old) }
{
    match (last, &frame.time) {
        (Some(last), Some(time)) => match last.reach(time) {
            Ordering::Less => {
                *place = frame.place;
                true
            }
            _ => false,
        },
        _ => false,
    }
}

// Takes a frame, if there is one, into the least time so far.
#[inline(always)]
fn take_first(first: &mut Option<Stamp>, place: &mut u64, frame: &Option<TimedFrame>)
    ensures time { first.new ≡ frame_time (earlier_frame (row_frame first.old place.old) frame.now) }
    ensures place { place.new ≡ place_or (earlier_frame (row_frame first.old place.old) frame.now) place.old }
{
    if let Some(frame) = frame {
        if is_earlier(frame, first, *place) {
            *first = Some(frame.time);
            *place = frame.place;
        }
    }
}

// Takes a frame, if there is one, into the greatest time so far.
#[inline(always)]
fn take_last(last: &mut Option<Stamp>, place: &mut u64, frame: &Option<TimedFrame>)
    ensures time { last.new ≡ frame_time (later_frame (row_frame last.old place.old) frame.now) }
    ensures place { place.new ≡ place_or (later_frame (row_frame last.old place.old) frame.now) place.old }
{
    if let Some(frame) = frame {
        match last {
            None => {
                *last = Some(frame.time);
                *place = frame.place;
            }
            Some(last) => match last.reach(&frame.time) {
                Ordering::Less => *place = frame.place,
                Ordering::Equal => {
                    if frame.place < *place {
                        *last = frame.time;
                        *place = frame.place;
                    }
                }
                Ordering::Greater => {}
            },
        }
    }
}
