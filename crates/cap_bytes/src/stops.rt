//! What ends a file that is read piece by piece: record by record, or block by block.
ghost use Rattle.std.specs.Prelude.{◌≡◌};
ghost use Rattle.cap_bytes.specs.Items.{cut_of, stop_by, stop_answer};

use crate::faults::{Fault, Refusal, Rule, Tail};

/// The rest of a file that is no whole piece, and that is dropped.
#[derive(Clone, Copy, Debug, PartialEq, Eq)]
pub struct CutRest {
    /// Where in the file it begins, in bytes.
    pub offset: u64,
    /// How many bytes it has.
    pub size: u64,
}

/// What ended the pieces of a file.
#[derive(Clone, Copy)]
pub enum Stop {
    /// No bytes were left.
    End,
    /// The bytes that were left were no whole piece, and were dropped.
    Cut(CutRest),
    /// The bytes that were left are refused.
    Refused(Refusal),
}

impl Stop {
    /// What ends the pieces if a rule is broken by the rest of a file, of `size` bytes. A rest that is cut may be
    /// dropped only `inside` a file, after what it begins with.
    pub fn by(inside: bool, tail: Tail, refusal: Refusal, size: u64) -> Stop
        ensures { result ≡ stop_by inside tail refusal.file refusal.offset size refusal.rule }
    {
        match (inside, tail, refusal.rule) {
            (true, Tail::Accept, Rule::Cut) => Stop::Cut(CutRest {
                offset: refusal.offset,
                size,
            }),
            _ => Stop::Refused(refusal),
        }
    }

    /// The rest that was cut, and that was dropped, if the pieces ended so.
    pub fn cut(self) -> Option<CutRest>
        ensures { result ≡ cut_of self }
    {
        match self {
            Stop::Cut(rest) => Some(rest),
            Stop::End | Stop::Refused(_) => None,
        }
    }

    /// What a call for a piece returns from then on.
    pub fn answer<T>(self) -> Result<Option<T>, Fault>
        ensures { result ≡ stop_answer self }
    {
        match self {
            Stop::End | Stop::Cut(_) => Ok(None),
            Stop::Refused(refusal) => Err(Fault::Refused(refusal)),
        }
    }
}
