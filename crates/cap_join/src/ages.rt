//! Deadlines of open groups: the last time at which a group isn't too old.
ghost use Rattle.std.specs.Prelude.{◌≡◌, true};
ghost use Rattle.cap_join.specs.inner.Ages.{is_past, latest_of, is_in_turn};
ghost use Rattle.cap_time.specs.Clock.{earlier};

use cap_time::Stamp;

/// Whether a deadline is before a clock.
pub(crate) fn is_past(deadline: Option<Stamp>, now: Option<Stamp>) -> bool
    ensures { result ≡ is_past deadline now }
{
    match deadline {
        None => false,
        Some(deadline) => Some(deadline) < now,
    }
}

/// The sooner of two deadlines.
pub(crate) fn sooner(a: Option<Stamp>, b: Option<Stamp>) -> Option<Stamp>
    ensures { result ≡ earlier a b }
{
    match a {
        None => b,
        Some(first) => match b {
            None => Some(first),
            Some(second) => {
                if second < first {
                    Some(second)
                } else {
                    Some(first)
                }
            }
        },
    }
}

/// The deadline of the group with a clock that was opened last, once one more is opened.
pub(crate) fn latest_of(latest: Option<Stamp>, deadline: Option<Stamp>) -> Option<Stamp>
    ensures { result ≡ latest_of latest deadline }
{
    match deadline {
        None => latest,
        Some(_) => deadline,
    }
}

// Whether a deadline isn't before the latest.
fn is_in_turn(latest: Option<Stamp>, deadline: Option<Stamp>) -> bool
    ensures { result ≡ is_in_turn latest deadline }
{
    match deadline {
        None => true,
        Some(deadline) => match latest {
            None => true,
            Some(latest) => deadline >= latest,
        },
    }
}

/// Whether groups that were opened in the order of their deadlines, or weren't, are so with one more.
pub(crate) fn stays_in_order(in_order: bool, latest: Option<Stamp>, deadline: Option<Stamp>) -> bool
    ensures order { result ≡ true → in_order ≡ true }
    ensures turn { result ≡ true → is_in_turn latest deadline ≡ true }
{
    if in_order {
        is_in_turn(latest, deadline)
    } else {
        false
    }
}
