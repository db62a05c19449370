//! Several feeds as one.
ghost use Rattle.std.specs.Prelude.{◌≡◌, ◌<◌, ◌≤◌, ◌<ℤ◌, ◌^◌, pos, length, map, drop, vec_len, true, false, IsTrue};
ghost use Rattle.std.specs.Prelude.{Some, Option, IfSome, IfOk};
ghost use Rattle.std.specs.List.{range_with_len};
ghost use Rattle.std.proofs.Props.{props};
ghost use Rattle.std.specs.Ordering.{is_gt};
ghost use Rattle.cap_time.specs.declared.stamps.Stamp.{Stamp};
ghost use Rattle.cap_time.specs.Stamp.{seconds_of};
ghost use Rattle.cap_time.specs.Clock.{clock_cmp, is_backward};
ghost use Rattle.cap_source.specs.declared.feeds.Head.{Head};
ghost use Rattle.cap_source.specs.Feed.{GivesHead, FeedKeeps, KeepsItems, FindsPacket, FindsItem, FeedPasses, IsPacket};
ghost use Rattle.cap_source.specs.Feed.{IfPacket};
ghost use Rattle.cap_source.specs.Times.{meta_time};
ghost use Rattle.cap_merge.specs.Backward.{backward_after, backward_step};
ghost use Rattle.cap_merge.specs.Run.{opened_track, run};
ghost use Rattle.cap_merge.specs.Parts.{item_time, is_refusal, AreNumberedFeeds, are_known};
ghost use Rattle.cap_merge.specs.Parts.{merged_feed, new_parts, clock_of, run_of, ClocksFrom, MovesClocks};
ghost use Rattle.cap_merge.specs.Parts.{KeepsRun, ShowsRun, BeginsAt, turns};
ghost use Rattle.cap_merge.specs.inner.First.{head_coming, has_next, lane_turns, first_place};
ghost use Rattle.cap_merge.specs.inner.Merge.{AsksAll, LooksAll, TellsNext, ShowsFirst};
ghost use Rattle.cap_merge.specs.inner.PartsProps.{IsMergeState, IsMergeState-prop};
ghost use Rattle.cap_merge.specs.inner.Tournament.{IsSettled, IsSettled-prop};

use crate::lanes::{
    Lane, ask_all, clock_at, coming_at, first_lane, greater, new_lanes, pass_at, show_at,
};
use crate::tournament::Tournament;
use arrayvec::ArrayVec;
use cap_bytes::{Fault, Refusal};
use cap_source::{Ending, FeedHeld, Head, Meta, PacketFeed, SkippedKinds};
use cap_time::Stamp;

/// The packets of several feeds in the order of exact time: by the greatest time so far in a packet's
/// file, of equal ones by file, then by place in the file, up to the first refusal.
#[derive(Drop)]
pub struct Merged<F: PacketFeed> {
    feeds: Vec<F>,
    lanes: ArrayVec<Lane, 32>,
    // the place of the feed whose item came first when that was looked for: that item still does, or it was a packet
    // and was passed
    front: Option<usize>,
    // if there are more than 4 feeds: whose item comes first in each group of them that the front isn't in
    tournament: Tournament,
    // whether packets that run backward are counted, and how many were passed that do
    counts: bool,
    backward: u64,
    ghost kept: { IsMergeState F.feed lanes.items feeds.items front } by { IsMergeState-prop _ _ _ _ },
    ghost settled: { IsSettled (lane_turns lanes.items) tournament front } by { IsSettled-prop _ _ _ },
}

/// A packet of a run, lent by the merge that it comes next of.
#[derive(Clone, Copy)]
pub struct RunPacket<'a> {
    /// Its clock: the greatest time of the packets of its file up to it, and none if there is no such time. Its seconds
    /// are below 2^65.
    pub clock: &'a Option<Stamp>,
    /// Its file, offset, interface, time and lengths.
    pub meta: &'a Meta,
    /// Its captured bytes.
    pub frame: &'a [u8],
    ghost bounded: { IfSome clock.now (λ c. seconds_of c <ℤ pos (2 ^ 65)) } by { Prim.hlevel props },
}

// Whether the time of a packet is earlier than its clock.
fn is_backward(clock: &Option<Stamp>, time: &Option<Stamp>) -> bool
    ensures { result ≡ is_backward clock.now time.now }
{
    time.is_some() && clock > time
}

impl<F: PacketFeed> Merged<F> {
    ghost use Rattle.cap_merge.specs.inner.View.{parts_of, backward_of, counts_backward};

    /// The feeds as one, the first being file 1, and so on. It asks them nothing yet, and counts nothing.
    pub fn new(feeds: Vec<F>) -> Merged<F>
        requires some { 1 ≤ vec_len feeds }
        requires most { vec_len feeds ≤ 32 }
        requires numbered { AreNumberedFeeds (map F.feed feeds.items) }
        ensures parts { parts_of result ≡ new_parts (map F.feed feeds.items) }
        ensures run { run_of (parts_of result)
            ≡ run item_time is_refusal (map (λ f. opened_track f.items) (map F.feed feeds.items)) }
        ensures backward { backward_of result ≡ 0 }
        ensures counts { counts_backward result ≡ false }
    {
        let lanes = new_lanes(feeds.len());
        Merged {
            feeds,
            lanes,
            front: None,
            tournament: Tournament::new(),
            counts: false,
            backward: 0,
        }
    }

    /// From now on counts the packets that are passed and run backward, or doesn't.
    pub fn count_backward(&mut self, counts: bool)
        ensures parts { parts_of self.new ≡ parts_of self.old }
        ensures backward { backward_of self.new ≡ backward_of self.old }
        ensures counts { counts_backward self.new ≡ counts }
    {
        self.counts = counts;
    }

    /// How many packets ran backward of those that were passed since they are counted: had a time that is earlier than
    /// that of a packet before them in their file. At most 2^64 - 1 are counted.
    pub fn backward(&self) -> u64
        ensures { result ≡ backward_of self.now }
    {
        self.backward // as `pass` has counted
    }

    /// How many feeds there are, each of one file: at most 32. The files are numbered from 1 on.
    pub fn files(&self) -> u32
        ensures files { result ≡ length (merged_feed (parts_of self.now)).files }
        ensures numbered { (merged_feed (parts_of self.now)).files ≡ range_with_len 1 result }
        ensures most { result ≤ 32 }
    {
        self.feeds.len() as u32
    }

    /// The clock of what comes next: the greatest time of the packets of its file up to it, and none
    /// if there is no such time. Its seconds are below 2^65.
    pub fn clock(&self) -> Option<Stamp>
        requires { has_next (merged_feed (parts_of self.now)).known ≡ true }
        ensures clock { result ≡ clock_of (parts_of self.now) }
        ensures bounded { IfSome result (λ clock. seconds_of clock <ℤ pos (2 ^ 65)) }
        ensures from { ClocksFrom result (parts_of self.now) }
        ensures not_below { (clock : Option Stamp) → ClocksFrom clock (parts_of self.now)
            → is_gt (clock_cmp clock result) ≡ false }
        ensures run { IsTrue (merged_feed (parts_of self.now)).told
            → BeginsAt result (run_of (parts_of self.now)) }
    {
        match self.first_place() {
            Some(place) => *clock_at(self.lanes.as_slice(), place),
            None => unreachable!(),
        }
    }

    /// The packet that comes next: what `clock`, `packet` and `frame` answer, each of which looks anew for the file
    /// that it is of.
    #[inline(always)]
    pub fn next_packet(&self) -> RunPacket<'_>
        requires { IsPacket (merged_feed (parts_of self.now)).known }
        ensures clock { result.clock.now ≡ clock_of (parts_of self.now) }
        ensures from { ClocksFrom result.clock.now (parts_of self.now) }
        ensures not_below { (clock : Option Stamp) → ClocksFrom clock (parts_of self.now)
            → is_gt (clock_cmp clock result.clock.now) ≡ false }
        ensures run { IsTrue (merged_feed (parts_of self.now)).told
            → BeginsAt result.clock.now (run_of (parts_of self.now)) }
        ensures packet { (merged_feed (parts_of self.now)).known ≡ Some (Head.Packet result.meta.now) }
        ensures frame { result.frame.now ≡ (merged_feed (parts_of self.now)).frame }
    {
        match self.first_place() {
            Some(place) => RunPacket {
                clock: clock_at(self.lanes.as_slice(), place),
                meta: self.feeds[place].packet(),
                frame: self.feeds[place].frame(),
            },
            None => unreachable!(),
        }
    }

    // Whether the packet that comes next runs backward.
    #[inline(never)]
    fn is_backward(&self) -> bool
        requires { IsPacket (merged_feed (parts_of self.now)).known }
        ensures { IfPacket (merged_feed (parts_of self.now)).known
            (λ meta. result ≡ is_backward (clock_of (parts_of self.now)) (meta_time meta)) }
    {
        let next = self.next_packet();
        is_backward(next.clock, &next.meta.time())
    }

    // How many packets more ran backward once the one that comes next is passed: 1 or 0, if they are counted.
    #[inline(always)]
    fn backward_step(&self) -> u64
        requires { IsPacket (merged_feed (parts_of self.now)).known }
        ensures { IfPacket (merged_feed (parts_of self.now)).known (λ meta. result
            ≡ backward_step (counts_backward self.now) (clock_of (parts_of self.now)) (meta_time meta)) }
    {
        if self.counts {
            u64::from(self.is_backward())
        } else {
            0
        }
    }

    // The place of the feed whose item comes first, if what comes next of each is known.
    #[inline(always)]
    fn first_place(&self) -> Option<usize>
        requires { are_known (parts_of self.now) ≡ true }
        ensures place { result ≡ first_place (turns (parts_of self.now)) }
        ensures within { IfSome result (λ n. n < length self.now.feeds.items) }
    {
        match self.front {
            Some(place) => Some(place),
            None => first_lane(self.lanes.as_slice()),
        }
    }

    // Asks each feed what comes next, unless that is known, and finds whose item comes first: whether it is a packet or
    // the end, or which refusal.
    #[inline(always)]
    fn look(&mut self) -> Result<Result<bool, Refusal>, Fault>
        ensures asks { AsksAll (parts_of self.old) result (parts_of self.new) }
        ensures next { IfOk result (λ coming. head_coming (merged_feed (parts_of self.new)).known ≡ Some coming) }
        ensures backward { backward_of self.new ≡ backward_of self.old }
        ensures counts { counts_backward self.new ≡ counts_backward self.old }
    {
        let unknown = self.front;
        self.front = None;
        ask_all(&mut self.lanes, &mut self.feeds, unknown)?;
        let first = self.tournament.first(self.lanes.as_slice(), unknown);
        self.front = first;
        Ok(coming_at(self.lanes.as_slice(), first))
    }

    // Whether the packet that comes first of all is at hand, after one was passed: it is known then.
    #[inline(always)]
    fn shows_first(&mut self) -> bool
        ensures shows { ShowsFirst (parts_of self.old) result (parts_of self.new) }
        ensures backward { backward_of self.new ≡ backward_of self.old }
        ensures counts { counts_backward self.new ≡ counts_backward self.old }
    {
        let Some(place) = self.front else {
            return false;
        };
        if !show_at(&mut self.lanes, &mut self.feeds, place) {
            return false;
        }
        // The packet at hand of the only file comes first.
        if self.lanes.len() == 1 {
            return true;
        }
        let first = self.tournament.first(self.lanes.as_slice(), Some(place));
        self.front = first;
        coming_at(self.lanes.as_slice(), first).unwrap_or(false)
    }

    // What `peek` returns of a packet that isn't at hand. It isn't inlined, so that what it returns takes no room
    // where packets are at hand.
    #[inline(never)]
    fn find(&mut self) -> Result<bool, Fault>
        ensures asks { LooksAll (parts_of self.old) result (parts_of self.new) }
        ensures next { TellsNext (merged_feed (parts_of self.new)).known result }
        ensures backward { backward_of self.new ≡ backward_of self.old }
        ensures counts { counts_backward self.new ≡ counts_backward self.old }
    {
        match self.look()? {
            Ok(is_packet) => Ok(is_packet),
            Err(refusal) => Err(Fault::Refused(refusal)),
        }
    }
}

impl<F: PacketFeed> PacketFeed for Merged<F> {
    ghost use Rattle.cap_merge.specs.inner.MergedLaws.{merged-is-feed};
    ghost use Rattle.cap_merge.specs.inner.View.{parts_of, backward_of, counts_backward};

    ghost feed = { λ m. merged_feed (parts_of m) };

    ghost lawful = { λ m. merged-is-feed m F.lawful };

    fn head(&mut self) -> Result<Head, Fault>
        ensures answer { GivesHead (merged_feed (parts_of self.old)) result
            (merged_feed (parts_of self.new)) }
        ensures keeps { FeedKeeps (merged_feed (parts_of self.old))
            (merged_feed (parts_of self.new)) }
        ensures items { IsTrue (merged_feed (parts_of self.old)).told
            → KeepsItems (merged_feed (parts_of self.old)) result
            (merged_feed (parts_of self.new)) }
        ensures asks { AsksAll (parts_of self.old) result (parts_of self.new) }
        ensures run { IsTrue (merged_feed (parts_of self.old)).told
            → KeepsRun (parts_of self.old) result (parts_of self.new) }
        ensures clocks { MovesClocks (parts_of self.old) (parts_of self.new) }
        ensures backward { backward_of self.new ≡ backward_of self.old }
        ensures counts { counts_backward self.new ≡ counts_backward self.old }
    {
        match self.look()? {
            Ok(true) => Ok(Head::Packet(*self.packet())),
            Ok(false) => Ok(Head::End),
            Err(refusal) => Ok(Head::Refused(refusal)),
        }
    }

    #[inline(always)]
    fn peek(&mut self) -> Result<bool, Fault>
        ensures answer { FindsPacket (merged_feed (parts_of self.old)) result
            (merged_feed (parts_of self.new)) }
        ensures keeps { FeedKeeps (merged_feed (parts_of self.old))
            (merged_feed (parts_of self.new)) }
        ensures items { IsTrue (merged_feed (parts_of self.old)).told
            → FindsItem (merged_feed (parts_of self.old)) result
            (merged_feed (parts_of self.new)) }
        ensures asks { LooksAll (parts_of self.old) result (parts_of self.new) }
        ensures run { IsTrue (merged_feed (parts_of self.old)).told
            → ShowsRun (parts_of self.old) result (parts_of self.new) }
        ensures clocks { MovesClocks (parts_of self.old) (parts_of self.new) }
        ensures backward { backward_of self.new ≡ backward_of self.old }
        ensures counts { counts_backward self.new ≡ counts_backward self.old }
    {
        if self.shows_first() {
            return Ok(true);
        }
        self.find()
    }

    // It asks its feeds what they have at hand, and has nothing at hand itself before it is asked.
    fn try_peek_buffered(&mut self) -> bool {
        false
    }

    #[inline(always)]
    fn packet(&self) -> &Meta {
        match self.first_place() {
            Some(place) => self.feeds[place].packet(),
            None => unreachable!(),
        }
    }

    fn frame(&self) -> &[u8] {
        match self.first_place() {
            Some(place) => self.feeds[place].frame(),
            None => &[],
        }
    }

    fn pass(&mut self)
        requires packet { IsPacket (merged_feed (parts_of self.old)).known }
        ensures passes { FeedPasses (merged_feed (parts_of self.old))
            (merged_feed (parts_of self.new)) }
        ensures keeps { FeedKeeps (merged_feed (parts_of self.old))
            (merged_feed (parts_of self.new)) }
        ensures run { IsTrue (merged_feed (parts_of self.old)).told
            → run_of (parts_of self.new) ≡ drop 1 (run_of (parts_of self.old)) }
        ensures clocks { ClocksFrom (clock_of (parts_of self.old)) (parts_of self.new) }
        ensures backward { IfPacket (merged_feed (parts_of self.old)).known (λ meta. backward_of self.new
            ≡ backward_after (counts_backward self.old) (backward_of self.old) (clock_of (parts_of self.old))
            (meta_time meta)) }
        ensures counts { counts_backward self.new ≡ counts_backward self.old }
    {
        self.backward = self.backward.saturating_add(self.backward_step());
        if let Some(place) = self.first_place() {
            pass_at(&mut self.lanes, &mut self.feeds, place);
        }
    }

    fn ending(&self, file: u32) -> Ending {
        self.feeds[file as usize - 1].ending(file)
    }

    fn named_interfaces(&self, file: u32) -> u64 {
        self.feeds[file as usize - 1].named_interfaces(file)
    }

    fn skipped_kinds(&self, file: u32) -> SkippedKinds {
        self.feeds[file as usize - 1].skipped_kinds(file)
    }

    fn comments(&self, file: u32) -> Option<u64> {
        self.feeds[file as usize - 1].comments(file)
    }

    fn feed_held(&self) -> FeedHeld {
        let mut held = FeedHeld {
            window: 0,
            interfaces: 0,
            failed: false,
        };
        for feed in self.feeds.iter() {
            held = greater(held, feed.feed_held());
        }
        held
    }
}
