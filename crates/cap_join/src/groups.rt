//! A group of fragments that aren't a whole datagram yet.
ghost use Rattle.std.specs.Prelude.{◌≡◌, List, [], ◌∷◌, ◌+◌, ◌-◌, ◌==◌, ◌≤◌, ◌<◌, ◌<ℤ◌, ◌^◌, pos, true, false, length};
ghost use Rattle.std.specs.Prelude.{take, Some, None, IsSome, IsTrue, IfSome, OnOk, OnErr, if◌then◌else◌};
ghost use Rattle.cap_time.specs.Stamp.{seconds_of};
ghost use Rattle.cap_join.specs.inner.Fitting.{FitsDatagram};
ghost use Rattle.cap_join.specs.Fragments.{Piece};
ghost use Rattle.cap_join.specs.inner.Incoming.{piece_in};
ghost use Rattle.cap_join.specs.ByteMap.{completes};
ghost use Rattle.cap_join.specs.Frames.{timed, earlier_stamped, later_stamped, is_too_old};
ghost use Rattle.cap_join.specs.inner.Ages.{deadline_of};
ghost use Rattle.cap_join.specs.inner.Groups.{IsGroupOf, IsDatagramOf};

use crate::buffers::{BufferPart, put_data};
use crate::datagrams::{Datagram, Incoming, Stamped};
use crate::holes::{HoleList, NO_HOLE};
use cap_ip::{Fragment, Header};
use cap_time::Stamp;
use std::alloc::{AllocError, Global};
use std::marker::Model;

// How many seconds a group waits for its fragments.
const WAIT: u32 = 30;

/// The fragments of one datagram, in the front of one buffer. What no fragment has filled of that is a hole, and is
/// described in the hole itself.
#[derive(Drop)]
pub(crate) struct Group {
    buffer: Vec<u8>,
    part: BufferPart,
    total: Option<u32>,
    header: Header,
    frames: u64,
    bytes: u128,
    first: Option<Stamped>,
    last: Option<Stamped>,
    clock: Option<Stamp>,
    place: u64,
}

impl Model for Group {
    ghost use Rattle.cap_join.specs.inner.Groups.{GroupState};

    ghost Value = { GroupState };

    ghost use Rattle.cap_join.specs.inner.GroupView.{group_view, IsSoundGroup};

    ghost view = { group_view };

    ghost invariant = { IsSoundGroup };
}

// The frame, if it has a time.
fn timed(frame: Stamped) -> Option<Stamped>
    ensures { result ≡ timed frame frame.time }
{
    match frame.time {
        None => None,
        Some(_) => Some(frame),
    }
}

// The one of the lesser time, of equal times the first.
fn earlier(first: Option<Stamped>, frame: Option<Stamped>) -> Option<Stamped>
    ensures { result ≡ earlier_stamped first frame }
{
    match frame {
        None => first,
        Some(frame) => match first {
            None => Some(frame),
            Some(first) => {
                if frame.time < first.time {
                    Some(frame)
                } else {
                    Some(first)
                }
            }
        },
    }
}

// The one of the greater time, of equal times the first.
fn later(last: Option<Stamped>, frame: Option<Stamped>) -> Option<Stamped>
    ensures { result ≡ later_stamped last frame }
{
    match frame {
        None => last,
        Some(frame) => match last {
            None => Some(frame),
            Some(last) => {
                if last.time < frame.time {
                    Some(frame)
                } else {
                    Some(last)
                }
            }
        },
    }
}

// The datagram's length: the end of a fragment after which none follows, else as it was.
fn total_after(total: Option<u32>, fragment: Fragment) -> Option<u32>
    requires { fragment.start + fragment.length < 2 ^ 32 }
    ensures { result ≡ (if fragment.more then total else Some (fragment.start + fragment.length)) }
{
    if fragment.more {
        total
    } else {
        Some(fragment.start + fragment.length)
    }
}

// The datagram's header: that of a fragment that begins at 0, else as it was.
fn header_after(header: Header, start: u32, new: &Header) -> Header
    ensures { result ≡ (if start == 0 then new.now else header) }
{
    if start == 0 { *new } else { header }
}

// A copy of a buffer's front, and the buffer. If there is no memory for the copy, the buffer itself is cut to the
// front, and an empty one is returned beside it.
fn payload_of(alloc: Global, buffer: Vec<u8>, total: u32) -> (Vec<u8>, Vec<u8>)
    requires { total ≤ length buffer.items }
    ensures payload { result.0.items ≡ take total buffer.items }
    ensures short { length result.1.items ≤ length buffer.items }
{
    let (front, _) = buffer.as_slice().split_at(total as usize);
    match Vec::from_slice(alloc, front) {
        Ok(payload) => (payload, buffer),
        Err(_) => {
            let mut payload = buffer;
            payload.truncate(total as usize);
            (payload, Vec::new(alloc))
        }
    }
}

impl Group {
    /// A group without a fragment, in a buffer of any bytes. Its first fragment has a clock, a place and a header.
    pub(crate) fn new(buffer: Vec<u8>, header: &Header, clock: Option<Stamp>, place: u64) -> Group
        requires clock { IfSome clock (λ c. seconds_of c <ℤ pos (2 ^ 65)) }
        requires short { length buffer.items ≤ 65520 }
        ensures group { IsGroupOf result [] }
        ensures room { result.room ≡ length buffer.items }
        ensures clock { result.clock ≡ clock }
        ensures place { result.place ≡ place }
    {
        Group {
            buffer,
            part: BufferPart {
                held: 0,
                holes: HoleList {
                    first: NO_HOLE,
                    cursor: NO_HOLE,
                },
            },
            total: None,
            header: *header,
            frames: 0,
            bytes: 0,
            first: None,
            last: None,
            clock,
            place,
        }
    }

    /// Puts a fragment with its data into the group. An `Err` leaves the group as it was.
    pub(crate) fn put(&mut self, incoming: &Incoming<'_>) -> Result<(), AllocError>
        requires few { self.old.frames < 2 ^ 63 }
        ensures ok { OnOk result ((ps : List Piece) → IsGroupOf self.old ps →
            IsGroupOf self.new (piece_in incoming.now ∷ ps)) }
        ensures frames { OnOk result (self.new.frames ≡ self.old.frames + 1) }
        ensures clock { self.new.clock ≡ self.old.clock }
        ensures place { self.new.place ≡ self.old.place }
        ensures room { self.old.room ≤ self.new.room }
        ensures err { OnErr result (self.new ≡ self.old) }
    {
        let fragment = incoming.fragment;
        let stamped = incoming.stamped;
        self.part = put_data(&mut self.buffer, self.part, fragment.start, incoming.data)?;
        self.total = total_after(self.total, fragment);
        self.header = header_after(self.header, fragment.start, incoming.header);
        self.frames += 1;
        self.bytes += u128::from(stamped.original);
        self.first = earlier(self.first, timed(stamped));
        self.last = later(self.last, timed(stamped));
        Ok(())
    }

    /// Whether no hole begins below the datagram's length: its fragments are a whole datagram.
    pub(crate) fn is_complete(&self) -> bool
        ensures { (ps : List Piece) → IsGroupOf self.now ps → result ≡ completes ps }
    {
        match self.total {
            None => false,
            Some(total) => self.part.holes.first >= total,
        }
    }

    /// Whether the clock of the first fragment and 30 seconds are before a clock.
    pub(crate) fn is_too_old(&self, now: Option<Stamp>) -> bool
        ensures { result ≡ is_too_old self.now.clock now }
    {
        match self.clock {
            None => false,
            Some(clock) => Some(clock.plus_seconds(WAIT)) < now,
        }
    }

    /// 30 seconds after the clock of the first fragment.
    pub(crate) fn deadline(&self) -> Option<Stamp>
        ensures { result ≡ deadline_of self.now.clock }
    {
        match self.clock {
            None => None,
            Some(clock) => Some(clock.plus_seconds(WAIT)),
        }
    }

    /// Whether the first fragment had a clock.
    pub(crate) fn has_clock(&self) -> bool
        ensures some { IsTrue result → IsSome self.now.clock }
        ensures none { result ≡ false → self.now.clock ≡ None }
    {
        self.clock.is_some()
    }

    /// The length of the part of the buffer that it holds.
    pub(crate) fn held_bytes(&self) -> usize
        ensures value { result ≡ length self.now.buffer }
        ensures bound { result ≤ 65520 }
    {
        self.part.held as usize
    }

    /// The length of the rest of the buffer.
    pub(crate) fn spare_bytes(&self) -> usize
        ensures value { result ≡ self.now.room - length self.now.buffer }
        ensures bound { result ≤ 65520 }
    {
        self.buffer.len() - self.part.held as usize
    }

    /// An empty group with the same header: a placeholder.
    pub(crate) fn blank(&self, alloc: Global) -> Group {
        Group::new(Vec::new(alloc), &self.header, None, 0)
    }

    /// Its buffer, for a later group.
    pub(crate) fn into_buffer(self) -> Vec<u8>
        ensures room { length result.items ≡ self.room }
        ensures short { length result.items ≤ 65520 }
    {
        let Group {
            buffer,
            part: _part,
            total: _total,
            header: _header,
            frames: _frames,
            bytes: _bytes,
            first: _first,
            last: _last,
            clock: _clock,
            place: _place,
        } = self;
        buffer
    }

    /// The datagram, and the buffer for a later group. That is empty if the payload took it.
    pub(crate) fn into_datagram(self, alloc: Global) -> (Datagram, Vec<u8>)
        ensures datagram { (ps : List Piece) → IsGroupOf self ps → completes ps ≡ true → IsDatagramOf result.0 ps }
        ensures fits { FitsDatagram result.0 }
        ensures short { length result.1.items ≤ 65520 }
    {
        let Group {
            buffer,
            part,
            total,
            header,
            frames,
            bytes,
            first,
            last,
            clock: _clock,
            place: _place,
        } = self;
        let (payload, buffer) = payload_of(alloc, buffer, total.unwrap_or(part.held));
        let datagram = Datagram {
            header,
            payload,
            frames,
            bytes,
            first,
            last,
        };
        (datagram, buffer)
    }
}
