//! Running counts of the packets of one file.
ghost use Rattle.std.specs.Prelude.{◌≡◌, ◌≤◌, ◌<◌, ◌*◌, ◌^◌, ◌++◌, List, [], ◌∷◌, true};
ghost use Rattle.cap_source.specs.declared.packets.Meta.{Meta};
ghost use Rattle.cap_source.specs.Times.{meta_time};
ghost use Rattle.cap_talks.specs.counts.Counting.{counted, with_packet, are_in_order};
ghost use Rattle.cap_time.specs.Clock.{earlier, later};

use cap_source::{Format, Meta};
use cap_time::Stamp;
use std::cmp::Ordering;

/// What is counted of the packets of one file, as far as they were taken.
#[derive(Clone, Copy, Default)]
pub struct Counts {
    /// The file's format, once a packet was taken.
    pub format: Option<Format>,
    /// How many packets there are.
    pub packets: u64,
    /// The sum of their original lengths, in bytes.
    pub bytes: u128,
    /// How many of them had more bytes than were captured.
    pub truncated: u64,
    /// How many blocks of the file were skipped before the last of them.
    pub skipped: u64,
    /// Their least time, of equal ones the first; `None` if no packet has a time.
    pub first: Option<Stamp>,
    /// Their greatest time, of equal ones the first.
    pub last: Option<Stamp>,
}

impl Counts {
    /// Nothing was taken yet.
    pub fn new() -> Counts
        ensures { result ≡ counted [] }
    {
        Counts {
            format: None,
            packets: 0,
            bytes: 0,
            truncated: 0,
            skipped: 0,
            first: None,
            last: None,
        }
    }

    /// Takes one more packet, which has that time, after those that were taken.
    #[inline(always)]
    pub fn take(&mut self, time: Option<Stamp>, meta: &Meta)
        requires time { time ≡ meta_time meta.now }
        requires packets { self.old.packets < 2 ^ 45 }
        requires bytes { self.old.bytes ≤ 2 ^ 45 * 2 ^ 32 }
        requires truncated { self.old.truncated < 2 ^ 45 }
        requires order { are_in_order self.old.first self.old.last ≡ true }
        ensures counts { (metas : List Meta) → self.old ≡ counted metas → self.new ≡ counted (metas ++ meta.now ∷ []) }
        ensures one_more { self.new ≡ with_packet self.old meta.now }
    {
        count(self, time, meta);
    }
}

// Counts one packet more.
#[inline(always)]
fn count(counts: &mut Counts, time: Option<Stamp>, meta: &Meta)
    requires time { time ≡ meta_time meta.now }
    requires packets { counts.old.packets < 2 ^ 45 }
    requires bytes { counts.old.bytes ≤ 2 ^ 45 * 2 ^ 32 }
    requires truncated { counts.old.truncated < 2 ^ 45 }
    requires order { are_in_order counts.old.first counts.old.last ≡ true }
    ensures { counts.new ≡ with_packet counts.old meta.now }
{
    counts.format = Some(meta.format);
    counts.packets += 1;
    counts.bytes += u128::from(meta.original);
    counts.truncated += u64::from(meta.captured < meta.original);
    counts.skipped = meta.skipped;
    take_time(&mut counts.first, &mut counts.last, time);
}

// Takes a time, if there is one, into the least and the greatest one so far. Most packets are later than all before
// them: they aren't compared with the least.
#[inline(always)]
fn take_time(first: &mut Option<Stamp>, last: &mut Option<Stamp>, time: Option<Stamp>)
    requires order { are_in_order first.old last.old ≡ true }
    ensures first { first.new ≡ earlier first.old time }
    ensures last { last.new ≡ later last.old time }
{
    let Some(time) = time else {
        return;
    };
    match last {
        None => {
            *first = Some(time);
            *last = Some(time);
        }
        Some(last) => match last.reach(&time) {
            Ordering::Less => {}
            _ => {
                if let Some(first) = first {
                    if time < *first {
                        *first = time;
                    }
                }
            }
        },
    }
}
