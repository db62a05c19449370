//! The order of stamps, which is that of their times, and a hash that agrees with it.
ghost use Rattle.std.specs.Prelude.{◌≡◌, ◌*◌, refl, IsTrue, if◌then◌else◌};
ghost use Rattle.std.specs.Ordering.{as_partial_cmp, nat_cmp, is_lt};
ghost use Rattle.cap_time.specs.Clock.{is_backward, later};
ghost use Rattle.cap_time.specs.Stamp.{numerator_of, denominator_of, stamp_cmp};
ghost use Rattle.cap_time.specs.inner.StampLaws.{CountAlike};

use crate::stamps::Stamp;
use std::cmp::Ordering;
use std::hash::{Hash, Hasher};

// Fractions of one denominator compare as their numerators do, others by their cross products.
fn fraction_cmp(a: &Stamp, b: &Stamp) -> Ordering
    ensures { result ≡ nat_cmp (numerator_of a.now * denominator_of b.now) (numerator_of b.now * denominator_of a.now) }
{
    if a.denominator() == b.denominator() {
        a.numerator().cmp(&b.numerator())
    } else {
        let own = u128::from(a.numerator()) * u128::from(b.denominator());
        let others = u128::from(b.numerator()) * u128::from(a.denominator());
        own.cmp(&others)
    }
}

// Whether two stamps count the same units from the same second.
#[inline(always)]
fn count_alike(a: &Stamp, b: &Stamp) -> bool
    ensures { IsTrue result → CountAlike a.now b.now }
{
    a.code == b.code && a.low == b.low && a.high == b.high
}

// Compares stamps in any forms: the seconds decide, and of equal seconds the fractions. It takes copies, so that
// where stamps count alike they need not be in memory.
#[inline(never)]
fn any_cmp(a: Stamp, b: Stamp) -> Ordering
    ensures { result ≡ stamp_cmp a b }
{
    let (own, others) = (a.seconds(), b.seconds());
    if own == others {
        fraction_cmp(&a, &b)
    } else {
        own.cmp(&others)
    }
}

impl Stamp {
    /// Moves to another time, if that is later, and returns how this one compared with it before.
    // Of stamps that count alike only the units are written, as they alone differ.
    #[inline(always)]
    pub fn reach(&mut self, time: &Stamp) -> Ordering
        ensures order { result ≡ stamp_cmp self.old time.now }
        ensures reached { self.new ≡ (if is_lt (stamp_cmp self.old time.now) then time.now else self.old) }
    {
        let order = (*self).cmp(time);
        if order == Ordering::Less {
            if count_alike(self, time) {
                self.units = time.units;
            } else {
                *self = *time;
            }
        }
        order
    }
}

/// Moves a clock to a time, if that is later, and returns whether the time is earlier: the packet runs backward. A
/// clock is the greatest of some times, and `None` if there is none.
#[inline(always)]
pub fn reach(clock: &mut Option<Stamp>, time: &Option<Stamp>) -> bool
    ensures clock { clock.new ≡ later clock.old time.now }
    ensures backward { result ≡ is_backward clock.old time.now }
{
    let Some(time) = time else {
        return false;
    };
    match clock {
        None => {
            *clock = Some(*time);
            false
        }
        Some(clock) => clock.reach(time).is_gt(),
    }
}

impl PartialEq for Stamp {
    ghost use Rattle.cap_time.specs.Stamp.{stamp_eq};
    ghost use Rattle.cap_time.specs.inner.StampLaws.{stamp_eq_partial};

    ghost eq = { stamp_eq };

    ghost laws = { stamp_eq_partial };

    fn eq(&self, other: &Stamp) -> bool {
        self.cmp(other) == Ordering::Equal
    }
}

impl Eq for Stamp {
    ghost use Rattle.cap_time.specs.inner.StampLaws.{stamp_eq_equivalence};

    ghost laws = { stamp_eq_equivalence };
}

impl PartialOrd for Stamp {
    ghost use Rattle.cap_time.specs.Stamp.{stamp_cmp};
    ghost use Rattle.cap_time.specs.inner.StampLaws.{stamp_partial_order};

    ghost partial_cmp = { as_partial_cmp stamp_cmp };

    ghost laws = { stamp_partial_order };

    fn partial_cmp(&self, other: &Stamp) -> Option<Ordering> {
        Some(self.cmp(other))
    }
}

impl Ord for Stamp {
    ghost use Rattle.cap_time.specs.Stamp.{stamp_cmp};
    ghost use Rattle.cap_time.specs.inner.StampLaws.{stamp_cmp_total};

    ghost cmp = { stamp_cmp };

    ghost total = { stamp_cmp_total };

    ghost matches_partial_cmp = { λ a b. refl };

    ghost matches_eq = { λ a b. refl };

    // Units that count alike compare as they are, as the packets of one interface do.
    #[inline(always)]
    fn cmp(&self, other: &Stamp) -> Ordering {
        if count_alike(self, other) {
            self.units.cmp(&other.units)
        } else {
            any_cmp(*self, *other)
        }
    }
}

impl Hash for Stamp {
    ghost use Rattle.cap_time.specs.inner.StampLaws.{stamp_hash, stamp_hash-same};

    ghost hash_input = { stamp_hash };

    ghost respects_eq = { stamp_hash-same };

    // The seconds and the first 64 binary places of the fraction: these are the same whatever the
    // denominator is.
    fn hash<H: Hasher>(&self, state: &mut H) {
        let places = u128::from(self.numerator()) * (1 << 64) / u128::from(self.denominator());
        self.seconds().hash(state);
        places.hash(state);
    }
}
