//! The lane whose item comes first, found by a tournament: after one lane has changed, only a few are compared.
ghost use Rattle.std.specs.Prelude.{◌≡◌, ◌<◌, ◌≤◌, ◌*◌, ◌+◌, ℕ, [], Option, length, IfSome};
ghost use Rattle.cap_merge.specs.inner.First.{lane_turns, first_place};
ghost use Rattle.cap_merge.specs.inner.Tournament.{first_of_two, IsRound, IsRoundBut, IsTournament, IsTournamentBut};
ghost use Rattle.cap_merge.specs.inner.Tournament.{IsSettled};

use crate::lanes::{Lane, first_lane};

// Up to this many lanes, comparing all of them is no slower.
const FEW: usize = 4;

/// For each group of 1, 2, 4, 8 and 16 lanes, the place of the lane whose item comes first, if one has an item. A merge
/// of 4 files or fewer doesn't use it.
#[derive(Drop)]
pub struct Tournament {
    ones: [Option<usize>; 32],
    twos: [Option<usize>; 16],
    fours: [Option<usize>; 8],
    eights: [Option<usize>; 4],
    sixteens: [Option<usize>; 2],
}

// The place that comes first, where each place has an item: if both clocks are equal, the former.
#[inline(always)]
fn first_of_two(lanes: &[Lane], first: Option<usize>, second: Option<usize>) -> Option<usize>
    requires first { IfSome first (λ n. n < length lanes.now) }
    requires second { IfSome second (λ n. n < length lanes.now) }
    ensures { result ≡ first_of_two (lane_turns lanes.now) first second }
{
    let Some(earlier) = first else {
        return second;
    };
    let Some(later) = second else {
        return first;
    };
    if lanes[later].is_below(&lanes[earlier]) {
        second
    } else {
        first
    }
}

// Records whether a lane has an item.
#[inline(always)]
fn enter(lanes: &[Lane], ones: &mut [Option<usize>], place: usize)
    requires lane { place < length lanes.now }
    requires place { place < length ones.old }
    ensures firsts { IsRoundBut (lane_turns lanes.now) 1 ones.old place → IsRound (lane_turns lanes.now) 1 ones.new }
    ensures length { length ones.new ≡ length ones.old }
{
    ones[place] = if lanes[place].has_item() {
        Some(place)
    } else {
        None
    };
}

// Records what comes first in a group: what comes first in its first half or in its second.
#[inline(always)]
fn meet(lanes: &[Lane], halves: &[Option<usize>], groups: &mut [Option<usize>], group: usize)
    requires halves { length halves.now ≡ 2 * length groups.old }
    requires most { length groups.old ≤ 16 }
    requires group { group < length groups.old }
    requires firsts { (size : ℕ) × IsRound (lane_turns lanes.now) size halves.now }
    ensures firsts { (size : ℕ) → IsRound (lane_turns lanes.now) size halves.now
        → IsRoundBut (lane_turns lanes.now) (size + size) groups.old group
        → IsRound (lane_turns lanes.now) (size + size) groups.new }
    ensures length { length groups.new ≡ length groups.old }
{
    groups[group] = first_of_two(lanes, halves[2 * group], halves[2 * group + 1]);
}

impl Tournament {
    /// The tournament of no lanes.
    pub(crate) fn new() -> Tournament
        ensures { IsTournament [] result }
    {
        Tournament {
            ones: [None; 32],
            twos: [None; 16],
            fours: [None; 8],
            eights: [None; 4],
            sixteens: [None; 2],
        }
    }

    // The place of the lane whose item comes first, after the lane at `place` has changed.
    #[inline(never)]
    fn play(&mut self, lanes: &[Lane], place: usize) -> Option<usize>
        requires most { length lanes.now ≤ 32 }
        requires place { place < length lanes.now }
        requires others { IsTournamentBut (lane_turns lanes.now) self.old place }
        ensures place { result ≡ first_place (lane_turns lanes.now) }
        ensures all { IsTournament (lane_turns lanes.now) self.new }
    {
        enter(lanes, &mut self.ones, place);
        meet(lanes, &self.ones, &mut self.twos, place / 2);
        meet(lanes, &self.twos, &mut self.fours, place / 4);
        meet(lanes, &self.fours, &mut self.eights, place / 8);
        meet(lanes, &self.eights, &mut self.sixteens, place / 16);
        first_of_two(lanes, self.sixteens[0], self.sixteens[1])
    }

    // The place of the lane whose item comes first, after any lanes have changed.
    #[inline(never)]
    fn play_all(&mut self, lanes: &[Lane]) -> Option<usize>
        requires most { length lanes.now ≤ 32 }
        ensures place { result ≡ first_place (lane_turns lanes.now) }
        ensures all { IsTournament (lane_turns lanes.now) self.new }
    {
        *self = Tournament::new();
        let mut first = None;
        for place in 0..lanes.len() {
            first = self.play(&lanes[..place + 1], place);
        }
        first
    }

    /// The place of the lane whose item comes first: the lane with the least clock, and the first of them if several
    /// have it. If `changed` is a place, only the lane there has changed.
    #[inline(always)]
    pub(crate) fn first(&mut self, lanes: &[Lane], changed: Option<usize>) -> Option<usize>
        requires most { length lanes.now ≤ 32 }
        requires changed { IfSome changed (λ n. n < length lanes.now) }
        requires settled { IsSettled (lane_turns lanes.now) self.old changed }
        ensures place { result ≡ first_place (lane_turns lanes.now) }
        ensures within { IfSome result (λ n. n < length lanes.now) }
        ensures settled { (front : Option ℕ) → IsSettled (lane_turns lanes.now) self.new front }
    {
        if lanes.len() <= FEW {
            return first_lane(lanes);
        }
        match changed {
            Some(place) => self.play(lanes, place),
            None => self.play_all(lanes),
        }
    }
}
