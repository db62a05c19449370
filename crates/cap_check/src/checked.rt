//! What is counted of the packets of a file that is checked.
ghost use Rattle.std.specs.Prelude.{◌≡◌, ◌<◌, ◌≤◌, ◌*◌, ◌^◌, ◌+◌, None, Some, true};
ghost use Rattle.cap_check.specs.CheckText.{asks_digest};
ghost use Rattle.cap_check.specs.Checking.{is_whole_end, nothing_checked, with_checked};
ghost use Rattle.cap_check.specs.inner.Taking.{are_least_first};
ghost use Rattle.cap_time.specs.Clock.{earlier, is_backward, later};

use cap_bytes::Refusal;
use cap_source::{FileEnd, Meta};
use cap_time::Stamp;
use std::cmp::Ordering;

/// What is counted of the packets of a file, as far as they were taken.
#[derive(Clone, Copy, Debug, PartialEq, Eq)]
pub struct Checked {
    /// How many packets there are.
    pub packets: u64,
    /// The sum of their original lengths, in bytes.
    pub bytes: u128,
    /// Their least time, of equal ones the first; `None` if no packet has a time.
    pub first: Option<Stamp>,
    /// Their greatest time, of equal ones the first.
    pub last: Option<Stamp>,
    /// How many of them have a time below the greatest time before them.
    pub backward: u64,
    /// How many of them have no time.
    pub untimed: u64,
    /// How many of them had more bytes than were captured.
    pub truncated: u64,
}

/// How a file that is checked ends.
#[derive(Clone, Copy, Debug, PartialEq, Eq)]
pub enum CheckEnd {
    /// It was read whole, and ended so.
    Whole(FileEnd),
    /// It is refused, and has that much up to there.
    Refusing(Refusal, FileEnd),
    /// A read of it failed, of the header, the record or the block that begins at that offset, in bytes. It has that
    /// much up to there; `None` if not even its header or its first block was read.
    Reading(u64, Option<FileEnd>),
    /// It could not be opened.
    Opening,
}

impl CheckEnd {
    /// Whether the file was read whole.
    pub fn is_whole(&self) -> bool
        ensures { result ≡ is_whole_end self.now }
    {
        match self {
            CheckEnd::Whole(_) => true,
            CheckEnd::Refusing(_, _) | CheckEnd::Reading(_, _) | CheckEnd::Opening => false,
        }
    }
}

/// What a check of a file found.
#[derive(Clone, Copy, Debug, PartialEq, Eq)]
pub struct Check {
    /// What is counted of its packets.
    pub counts: Checked,
    /// The digest of its packets, as `PacketDigest` gives it; `None` if none is asked for, or the file isn't whole.
    pub digest: Option<[u8; 32]>,
    /// How it ends.
    pub end: CheckEnd,
}

impl Check {
    /// What a check of a file finds that could not be opened.
    pub fn unopened() -> Check
        ensures counts { result.counts ≡ nothing_checked }
        ensures digest { result.digest ≡ None }
        ensures end { result.end ≡ CheckEnd.Opening }
    {
        Check {
            counts: Checked::new(),
            digest: None,
            end: CheckEnd::Opening,
        }
    }
}

/// Which line is printed of a file that is checked.
#[derive(Clone, Copy, Debug, PartialEq, Eq)]
pub enum CheckLine {
    /// What is counted of its packets: the line of `check`.
    Counts,
    /// The same, with the digest of its packets: the line of `check --digest`.
    CountsAndDigest,
    /// The digest and how many packets there are, without what else is counted: the line of `digest`.
    Digest,
}

impl CheckLine {
    /// Whether the line has a digest.
    pub fn asks_digest(self) -> bool
        ensures { result ≡ asks_digest self }
    {
        match self {
            CheckLine::Counts => false,
            CheckLine::CountsAndDigest | CheckLine::Digest => true,
        }
    }
}

// Takes a time into the least time so far.
#[inline(never)]
fn lower(first: &mut Option<Stamp>, time: &Stamp)
    ensures { first.new ≡ earlier first.old (Some time.now) }
{
    match first {
        None => *first = Some(*time),
        Some(first) => {
            if *time < *first {
                *first = *time;
            }
        }
    }
}

// Takes a time into the least and the greatest one so far, and returns whether it is below the greatest. Only such a
// time can be below the least, so no other is compared with that.
#[inline(always)]
fn take_time(first: &mut Option<Stamp>, last: &mut Option<Stamp>, time: &Stamp) -> bool
    requires order { are_least_first first.old last.old ≡ true }
    ensures first { first.new ≡ earlier first.old (Some time.now) }
    ensures last { last.new ≡ later last.old (Some time.now) }
    ensures backward { result ≡ is_backward last.old (Some time.now) }
{
    match last {
        None => {
            *first = Some(*time);
            *last = Some(*time);
            false
        }
        Some(last) => match last.reach(time) {
            Ordering::Greater => {
                lower(first, time);
                true
            }
            Ordering::Less | Ordering::Equal => false,
        },
    }
}

impl Checked {
    /// Nothing was taken yet.
    pub fn new() -> Checked
        ensures { result ≡ nothing_checked }
    {
        Checked {
            packets: 0,
            bytes: 0,
            first: None,
            last: None,
            backward: 0,
            untimed: 0,
            truncated: 0,
        }
    }

    /// Takes one more packet, after those that were taken.
    #[inline(always)]
    pub fn take(&mut self, meta: &Meta)
        requires packets { self.old.packets < 2 ^ 45 }
        requires bytes { self.old.bytes ≤ 2 ^ 45 * 2 ^ 32 }
        requires order { are_least_first self.old.first self.old.last ≡ true }
        requires backward { self.old.backward < 2 ^ 45 }
        requires untimed { self.old.untimed < 2 ^ 45 }
        requires truncated { self.old.truncated < 2 ^ 45 }
        ensures counts { self.new ≡ with_checked self.old meta.now }
        ensures order { are_least_first self.new.first self.new.last ≡ true }
    {
        self.packets += 1;
        self.bytes += u128::from(meta.original);
        self.truncated += u64::from(meta.captured < meta.original);
        match meta.time() {
            Some(time) => {
                let is_backward = take_time(&mut self.first, &mut self.last, &time);
                self.backward += u64::from(is_backward);
            }
            None => self.untimed += 1,
        }
    }
}
