//! What is counted of the packets that were taken: of each file, and of all.
ghost use Rattle.std.specs.Prelude.{◌≡◌, ◌+◌, ◌-◌, ◌≤◌, ◌<◌, ◌^◌, List, [], ◌∷◌, Option, true, length, replicate};
ghost use Rattle.std.specs.Prelude.{slice_index_or, slice_set};
ghost use Rattle.cap_source.specs.Times.{meta_time};
ghost use Rattle.cap_talks.specs.counts.Counting.{counted, with_packet};
ghost use Rattle.cap_class.specs.Taken.{taken};
ghost use Rattle.cap_class.specs.Taken.{Taken};
ghost use Rattle.cap_talks.specs.inner.table.Totals.{TotalsStand, is_room};
ghost use Rattle.cap_time.specs.declared.stamps.Stamp.{Stamp};

use crate::counts::Counts;
use arrayvec::ArrayVec;
use cap_source::Meta;
use cap_time::Stamp;
use std::marker::Model;

/// Running counts of the packets of a run: of each of its at most 32 files, and of all.
#[derive(Drop)]
pub(crate) struct Totals {
    files: ArrayVec<Counts, 32>,
    packets: u64,
    bytes: u128,
    truncated: u64,
}

impl Model for Totals {
    ghost use Rattle.cap_talks.specs.inner.table.Totals.{TotalsState};

    ghost Value = { TotalsState };

    ghost use Rattle.cap_talks.specs.inner.table.TotalsView.{totals_view, IsSoundTotalsInside};

    ghost view = { totals_view };

    ghost invariant = { IsSoundTotalsInside };
}

// The counts of files of which nothing was taken.
fn new_files(count: u32) -> ArrayVec<Counts, 32>
    requires { count ≤ 32 }
    ensures { result.items ≡ replicate count (counted []) }
{
    let mut files = ArrayVec::new();
    for _ in 0..count {
        files.push(Counts::new());
    }
    files
}

// Takes a packet into the counts of the file at a place.
#[inline(always)]
fn take_at(files: &mut [Counts], place: usize, time: Option<Stamp>, meta: &Meta)
    requires time { time ≡ meta_time meta.now }
    requires place { place < length files.old }
    requires room { is_room (slice_index_or files.old place (counted [])) ≡ true }
    ensures { files.new ≡ slice_set files.old place
        (with_packet (slice_index_or files.old place (counted [])) meta.now) }
{
    files[place].take(time, meta);
}

impl Totals {
    /// The counts of a run of that many files, at most 32, of which nothing was taken.
    pub(crate) fn new(files: u32) -> Totals
        requires { files ≤ 32 }
        ensures stands { TotalsStand result [] }
        ensures files { length result.files ≡ files }
    {
        Totals {
            files: new_files(files),
            packets: 0,
            bytes: 0,
            truncated: 0,
        }
    }

    /// Takes the next packet of the run, which has that time and those captured bytes.
    #[inline(always)]
    pub(crate) fn take(&mut self, time: Option<Stamp>, meta: &Meta, frame: &[u8])
        requires time { time ≡ meta_time meta.now }
        requires first { 1 ≤ meta.now.file }
        requires last { meta.now.file ≤ length self.old.files }
        requires few { self.old.packets < 2 ^ 45 }
        ensures stands { (clock : Option Stamp) (xs : List Taken) → TotalsStand self.old xs
            → TotalsStand self.new (taken clock meta.now frame.now ∷ xs) }
        ensures files { length self.new.files ≡ length self.old.files }
        ensures packets { self.new.packets ≡ self.old.packets + 1 }
    {
        let original = meta.original;
        take_at(
            self.files.as_mut_slice(),
            meta.file as usize - 1,
            time,
            meta,
        );
        self.packets += 1;
        self.bytes += u128::from(original);
        self.truncated += u64::from(frame.len() < original as usize);
    }

    /// What is counted of each file, by number: of at most 32.
    pub(crate) fn files(&self) -> &[Counts]
        ensures files { result.now ≡ self.now.files }
        ensures few { length result.now ≤ 32 }
    {
        self.files.as_slice()
    }

    /// How many packets were taken.
    pub(crate) fn packets(&self) -> u64
        ensures { result ≡ self.now.packets }
    {
        self.packets
    }

    /// The sum of their original lengths, in bytes.
    pub(crate) fn bytes(&self) -> u128
        ensures { result ≡ self.now.bytes }
    {
        self.bytes
    }

    /// How many of them had more bytes than were captured.
    pub(crate) fn truncated(&self) -> u64
        ensures { result ≡ self.now.truncated }
    {
        self.truncated
    }
}
