//! Laws of the definitions.
ghost use Rattle.cap_join.specs.Completed.{CompletedLaw, OnceLaw};
ghost use Rattle.cap_join.specs.inner.EqualClocks.{EqualClocksLaw};
ghost use Rattle.cap_join.specs.Places.{PlacesLaw};
ghost use Rattle.cap_join.specs.inner.Rows.{OpenLimit, OverlapMap, ThirtySeconds};

/// The two definitions of groups agree: the one by places, which asks of the fragment before with the
/// key, and the one by steps, in which each fragment drops all groups that are too old; and so do the
/// groups that were completed by either. This holds if clocks never fall, places rise, and no fragment
/// is a whole datagram by itself. And no fragment is in two groups, open or completed.
pub fn places_law()
    ensures groups { PlacesLaw }
    ensures completed { CompletedLaw }
    ensures once { OnceLaw }
{}

/// Clocks count by the order of times alone: the same fragments and keys, at clocks of the same times in whatever
/// form (5/10 and 512/1024 of a second), complete the same groups, give up as many, and leave the same group to
/// be joined by one more fragment.
pub fn equal_clocks()
    ensures { EqualClocksLaw }
{}

/// The definitions on small groups: overlapped fragments, the open limit, and 30 seconds.
pub fn worked_rows()
    ensures overlap_map { OverlapMap }
    ensures open_limit { OpenLimit }
    ensures thirty_seconds { ThirtySeconds }
{}
