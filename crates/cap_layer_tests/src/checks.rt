//! What tests ask of values. Each question is one call with few arguments, by value: what the proof of a test costs
//! grows with its branches, and as the square of its calls and their arguments.
ghost use Rattle.std.specs.Prelude.{IsTrue};

use std::fmt::Debug;
use std::process::Abort;

/// That what was found is what is wanted.
pub(crate) fn ask_same<T: Copy + PartialEq + Debug>(
    rt: &impl Abort,
    what: &str,
    found: T,
    wanted: T,
)
    ensures { IsTrue (T.eq found wanted) }
{
    assert_eq!(rt; found, wanted, "{what}");
}

/// That what was found in that row of a table is what is wanted.
pub(crate) fn ask_same_at<T: Copy + PartialEq + Debug>(
    rt: &impl Abort,
    what: &str,
    row: impl Copy + Debug,
    found: T,
    wanted: T,
)
    ensures { IsTrue (T.eq found wanted) }
{
    assert_eq!(rt; found, wanted, "{what} at {row:?}");
}

/// That it is true.
pub(crate) fn ask(rt: &impl Abort, what: &str, found: bool)
    ensures { IsTrue found }
{
    assert!(rt; found, "{what}");
}

/// That it is true in that row of a table.
pub(crate) fn ask_at(rt: &impl Abort, what: &str, row: impl Copy + Debug, found: bool)
    ensures { IsTrue found }
{
    assert!(rt; found, "{what} at {row:?}");
}

/// `same!(rt; found, wanted)`, where `rt` is lent already, or with a row of a table as a third: that both are equal.
macro_rules! same {
    ($rt:expr; $found:expr, $wanted:expr $(,)?) => {
        $crate::checks::ask_same($rt, stringify!($found), $found, $wanted)
    };
    ($rt:expr; $found:expr, $wanted:expr, $row:expr $(,)?) => {
        $crate::checks::ask_same_at($rt, stringify!($found), $row, $found, $wanted)
    };
}

/// `holds!(rt; found)`, or with a row of a table as a second: that it is true.
macro_rules! holds {
    ($rt:expr; $found:expr $(,)?) => {
        $crate::checks::ask($rt, stringify!($found), $found)
    };
    ($rt:expr; $found:expr, $row:expr $(,)?) => {
        $crate::checks::ask_at($rt, stringify!($found), $row, $found)
    };
}

pub(crate) use holds;
pub(crate) use same;
