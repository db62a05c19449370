//! What is known of each feed, and which of them comes first.
ghost use Rattle.std.specs.Prelude.{◌≡◌, ◌<◌, ◌≤◌, List, replicate, length, true, is_some, None, Some, Ok, IfSome, map};
ghost use Rattle.std.specs.List.{list_all};
ghost use Rattle.std.specs.Ordering.{is_lt};
ghost use Rattle.cap_time.specs.Clock.{clock_cmp};
ghost use Rattle.cap_source.specs.Feed.{Feed};
ghost use Rattle.cap_merge.specs.Parts.{part, parts, known_of, known_but, both_held, OthersKnown, Matches, LanesAgree};
ghost use Rattle.cap_merge.specs.inner.First.{head_coming, fresh_lane, lane_at, has_item, lane_turn, lane_turns};
ghost use Rattle.cap_merge.specs.inner.First.{comes_before, sooner_place, first_place, AreSameBut};
ghost use Rattle.cap_merge.specs.inner.Merge.{LaneAnswers, Asks, AsksAll, LaneShows, ShowsAt, IsPacketAt, PassesAt};

use arrayvec::ArrayVec;
use cap_bytes::{Fault, Refusal};
use cap_source::{FeedHeld, PacketFeed};
use cap_time::{Stamp, reach};

/// What is known of a feed: what comes next, if that was asked for, and the clock that the feed has
/// reached, by the packets that were passed and by the packet that is known to come next.
#[derive(Clone, Copy, Default)]
pub struct Lane {
    pub(crate) clock: Option<Stamp>,
    // whether a packet comes next or the end, or which refusal: no `Head`, since the feed keeps the packet
    pub(crate) next: Option<Result<bool, Refusal>>,
}

/// That many lanes of which nothing is known.
pub(crate) fn new_lanes(count: usize) -> ArrayVec<Lane, 32>
    requires { count ≤ 32 }
    ensures { result.items ≡ replicate count fresh_lane }
{
    let mut lanes = ArrayVec::new();
    for _ in 0..count {
        lanes.push(Lane {
            clock: None,
            next: None,
        });
    }
    lanes
}

impl Lane {
    // What comes of a fault of the feed: a refusal is what comes next, another fault is returned.
    #[inline(never)]
    fn stop(&mut self, fault: Fault) -> Result<(), Fault>
        ensures { LaneAnswers self.old fault result self.new }
    {
        match fault {
            Fault::Refused(refusal) => {
                self.next = Some(Err(refusal));
                Ok(())
            }
            fault => Err(fault),
        }
    }

    // Asks the feed what comes next, which isn't known. It isn't inlined: where packets are at hand it is never called,
    // and its answer would take room at each of them.
    #[inline(never)]
    fn learn<F: PacketFeed>(&mut self, feed: &mut F) -> Result<(), Fault>
        requires { self.old.next ≡ None }
        ensures asks { Asks (part self.old (F.feed feed.old)) result (part self.new (F.feed feed.new)) }
        ensures agrees { Matches self.new (F.feed feed.new) }
    {
        match feed.peek() {
            Ok(true) => {
                self.next = Some(Ok(true));
                reach(&mut self.clock, &feed.packet().time());
                Ok(())
            }
            Ok(false) => {
                self.next = Some(Ok(false));
                Ok(())
            }
            Err(fault) => self.stop(fault),
        }
    }

    // Asks the feed what comes next, unless that is known.
    #[inline(always)]
    fn ask<F: PacketFeed>(&mut self, feed: &mut F) -> Result<(), Fault>
        requires { Matches self.old (F.feed feed.old) }
        ensures asks { Asks (part self.old (F.feed feed.old)) result (part self.new (F.feed feed.new)) }
        ensures agrees { Matches self.new (F.feed feed.new) }
    {
        match self.next {
            Some(_) => Ok(()),
            None => self.learn(feed),
        }
    }

    /// Asks the feed whether it has a packet at hand, unless it is known what comes next. If so the packet is known
    /// then.
    #[inline(always)]
    fn show<F: PacketFeed>(&mut self, feed: &mut F) -> bool
        requires { Matches self.old (F.feed feed.old) }
        ensures shows { LaneShows (part self.old (F.feed feed.old)) result (part self.new (F.feed feed.new)) }
        ensures agrees { Matches self.new (F.feed feed.new) }
        ensures packet { result ≡ true → self.new.next ≡ Some (Ok true) }
    {
        if self.next.is_some() {
            return false;
        }
        if feed.try_peek_buffered() {
            self.next = Some(Ok(true));
            reach(&mut self.clock, &feed.packet().time());
            true
        } else {
            false
        }
    }

    /// Whether an item is known to come next.
    #[inline(always)]
    pub(crate) fn has_item(&self) -> bool
        ensures { result ≡ has_item self.now.next }
    {
        match self.next {
            None => false,
            Some(Ok(is_packet)) => is_packet,
            Some(Err(_)) => true,
        }
    }

    /// Whether its clock is below that of another lane.
    #[inline(always)]
    pub(crate) fn is_below(&self, other: &Lane) -> bool
        ensures { result ≡ is_lt (clock_cmp self.now.clock other.now.clock) }
    {
        self.clock < other.clock
    }

    // Whether the item comes before that of an earlier lane.
    #[inline(always)]
    fn comes_before(&self, first: &Lane) -> bool
        ensures { result ≡ comes_before (lane_turn self.now) (lane_turn first.now) }
    {
        self.is_below(first) && self.has_item()
    }
}

// Asks each feed in turn what comes next, unless that is known, and stops at the first that can't tell.
#[inline(never)]
fn ask_each<F: PacketFeed>(lanes: &mut [Lane], feeds: &mut [F]) -> Result<(), Fault>
    requires alike { length lanes.old ≡ length feeds.old }
    requires agrees { LanesAgree lanes.old (map F.feed feeds.old) }
    ensures asks { AsksAll (parts lanes.old (map F.feed feeds.old)) result (parts lanes.new (map F.feed feeds.new)) }
    ensures agrees { LanesAgree lanes.new (map F.feed feeds.new) }
{
    for i in 0..lanes.len() {
        lanes[i].ask(&mut feeds[i])?;
    }
    Ok(())
}

/// Asks each feed in turn what comes next, unless that is known, and stops at the first that can't tell:
/// what was learned before it is kept. If only what comes next of the feed at a place isn't known, it alone is asked.
#[tactic(auto, using(crate::proofs::Others::but_within))]
#[inline(always)]
pub(crate) fn ask_all<F: PacketFeed>(
    lanes: &mut ArrayVec<Lane, 32>,
    feeds: &mut Vec<F>,
    unknown: Option<usize>,
) -> Result<(), Fault>
    requires alike { length lanes.old.items ≡ length feeds.old.items }
    requires agrees { LanesAgree lanes.old.items (map F.feed feeds.old.items) }
    requires others { OthersKnown (parts lanes.old.items (map F.feed feeds.old.items)) unknown }
    ensures asks { AsksAll (parts lanes.old.items (map F.feed feeds.old.items)) result
        (parts lanes.new.items (map F.feed feeds.new.items)) }
    ensures turns { IfSome unknown (AreSameBut (lane_turns lanes.old.items) (lane_turns lanes.new.items)) }
    ensures agrees { LanesAgree lanes.new.items (map F.feed feeds.new.items) }
    ensures lanes { length lanes.new.items ≡ length lanes.old.items }
    ensures feeds { length feeds.new.items ≡ length feeds.old.items }
{
    match unknown {
        Some(place) => lanes[place].ask(&mut feeds[place]),
        None => ask_each(lanes.as_mut_slice(), feeds.as_mut_slice()),
    }
}

/// Asks the feed at a place, of which a packet was passed, whether it has the next one at hand.
#[tactic(auto, using(crate::proofs::Others::but_within))]
#[inline(always)]
pub(crate) fn show_at<F: PacketFeed>(
    lanes: &mut ArrayVec<Lane, 32>,
    feeds: &mut Vec<F>,
    place: usize,
) -> bool
    requires alike { length lanes.old.items ≡ length feeds.old.items }
    requires agrees { LanesAgree lanes.old.items (map F.feed feeds.old.items) }
    requires others { known_but (parts lanes.old.items (map F.feed feeds.old.items)) place ≡ true }
    ensures shows { ShowsAt (parts lanes.old.items (map F.feed feeds.old.items)) place result
        (parts lanes.new.items (map F.feed feeds.new.items)) }
    ensures turns { AreSameBut (lane_turns lanes.old.items) (lane_turns lanes.new.items) place }
    ensures agrees { LanesAgree lanes.new.items (map F.feed feeds.new.items) }
    ensures packet { result ≡ true → (lane_at lanes.new.items place).next ≡ Some (Ok true) }
    ensures lanes { length lanes.new.items ≡ length lanes.old.items }
    ensures feeds { length feeds.new.items ≡ length feeds.old.items }
{
    lanes[place].show(&mut feeds[place])
}

/// Drops the packet that comes next of the feed at a place.
#[inline(always)]
pub(crate) fn pass_at<F: PacketFeed>(
    lanes: &mut ArrayVec<Lane, 32>,
    feeds: &mut Vec<F>,
    place: usize,
)
    requires alike { length lanes.old.items ≡ length feeds.old.items }
    requires agrees { LanesAgree lanes.old.items (map F.feed feeds.old.items) }
    requires place { place < length lanes.old.items }
    requires packet { IsPacketAt (parts lanes.old.items (map F.feed feeds.old.items)) place }
    ensures passes { PassesAt (parts lanes.old.items (map F.feed feeds.old.items)) place
        (parts lanes.new.items (map F.feed feeds.new.items)) }
    ensures turns { AreSameBut (lane_turns lanes.old.items) (lane_turns lanes.new.items) place }
    ensures agrees { LanesAgree lanes.new.items (map F.feed feeds.new.items) }
    ensures lanes { length lanes.new.items ≡ length lanes.old.items }
    ensures feeds { length feeds.new.items ≡ length feeds.old.items }
{
    feeds[place].pass();
    lanes[place].next = None;
}

// The place of the first of those so far and of one more lane: of equal clocks the one before stays.
#[inline(always)]
fn sooner(lanes: &[Lane], first: Option<usize>, place: usize) -> Option<usize>
    requires first { IfSome first (λ n. n < length lanes.now) }
    requires place { place < length lanes.now }
    ensures { result ≡ sooner_place (lane_turns lanes.now) first place }
{
    match first {
        None => {
            if lanes[place].has_item() {
                Some(place)
            } else {
                None
            }
        }
        Some(first) => {
            if lanes[place].comes_before(&lanes[first]) {
                Some(place)
            } else {
                Some(first)
            }
        }
    }
}

// The place of the lane whose item comes first, of several.
#[inline(never)]
fn first_of_several(lanes: &[Lane]) -> Option<usize>
    ensures place { result ≡ first_place (lane_turns lanes.now) }
    ensures within { IfSome result (λ n. n < length lanes.now) }
{
    let mut first = None;
    for place in 0..lanes.len() {
        first = sooner(lanes, first, place);
    }
    first
}

/// The place of the lane whose item comes first: that of the least clock, of equal ones the first.
#[inline(always)]
pub(crate) fn first_lane(lanes: &[Lane]) -> Option<usize>
    ensures place { result ≡ first_place (lane_turns lanes.now) }
    ensures within { IfSome result (λ n. n < length lanes.now) }
{
    if lanes.len() == 1 {
        if lanes[0].has_item() { Some(0) } else { None }
    } else {
        first_of_several(lanes)
    }
}

/// What comes next of all, if that of each is known and the lane at that place has the item that comes first: whether a
/// packet or the end, or which refusal.
#[inline(always)]
pub(crate) fn coming_at(lanes: &[Lane], first: Option<usize>) -> Result<bool, Refusal>
    requires known { list_all (λ l. is_some l.next) lanes.now ≡ true }
    requires place { first ≡ first_place (lane_turns lanes.now) }
    requires within { IfSome first (λ n. n < length lanes.now) }
    ensures { (feeds : List Feed) → length feeds ≡ length lanes.now → LanesAgree lanes.now feeds
        → head_coming (known_of (parts lanes.now feeds)) ≡ Some result }
{
    match first {
        Some(first) => match lanes[first].next {
            Some(coming) => coming,
            None => Ok(false),
        },
        None => Ok(false),
    }
}

/// The clock of the lane at a place.
#[inline(always)]
pub(crate) fn clock_at(lanes: &[Lane], place: usize) -> &Option<Stamp>
    requires { place < length lanes.now }
    ensures { result.now ≡ (lane_at lanes.now place).clock }
{
    &lanes[place].clock
}

/// The greater of what two feeds hold.
pub(crate) fn greater(a: FeedHeld, b: FeedHeld) -> FeedHeld
    ensures { result ≡ both_held a b }
{
    FeedHeld {
        window: a.window.max(b.window),
        interfaces: a.interfaces.max(b.interfaces),
        failed: a.failed || b.failed,
    }
}
