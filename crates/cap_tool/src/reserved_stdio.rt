//! Standard streams that were closed when the program began.
ghost use Rattle.std.specs.Prelude.{◌≡◌, ◌≤◌, Ok, IfErr, IsFalse, length, map};
ghost use Rattle.cap_tool.specs.Streams.{StopsAtDash};

use crate::causes::Cause;
use crate::outcomes::{Outcome, RunStop};
use std::fs::{File, OpenOptions};
use std::io::{Stderr, Stdin, Stdout};
use std::os::fd::AsFd;
use std::rt::Files;

// The number that Linux gives the error of a descriptor that isn't open.
const NOT_OPEN: i32 = 9;

/// What stands for the standard streams that were closed, so that no file that is opened takes the number of one: each
/// read and write of it fails, as of a closed one.
#[derive(Drop)]
pub struct ReservedStdio {
    input: Option<File>,
    output: Option<File>,
    faults: Option<File>,
}

// Whether a stream isn't open.
fn is_closed<S: AsFd>(stream: &S) -> bool {
    match stream.as_fd().try_clone_to_owned() {
        Ok(_) => false,
        Err(error) => error.raw_os_error() == Some(NOT_OPEN),
    }
}

// A file that can't be read, or that can't be written, of which the number is the lowest that is free.
fn unusable<R: Files<File = File>>(files: &R, reads: bool) -> Option<File> {
    OpenOptions::new()
        .read(reads)
        .write(!reads)
        .open(files, "/dev/null")
        .ok()
}

impl ReservedStdio {
    /// Looks which of the standard streams are closed, in the order of their numbers, before any file is opened.
    pub fn find<R: Files<File = File>>(
        files: &R,
        input: Stdin,
        output: Stdout,
        faults: Stderr,
    ) -> ReservedStdio {
        let input = if is_closed(&input) {
            unusable(files, false)
        } else {
            None
        };
        let output = if is_closed(&output) {
            unusable(files, true)
        } else {
            None
        };
        let faults = if is_closed(&faults) {
            unusable(files, true)
        } else {
            None
        };
        ReservedStdio {
            input,
            output,
            faults,
        }
    }

    /// Whether standard input was closed.
    pub fn has_no_input(&self) -> bool {
        self.input.is_some()
    }
}

/// Refuses to read standard input, `-`, if it was closed: returns `Outcome::Open` with the number, from 1, of the
/// file that is so named.
pub fn check_input(has_no_input: bool, names: &[&str]) -> Result<(), RunStop>
    requires most { length names.now ≤ 4294967295 }
    ensures open { IsFalse has_no_input → result ≡ Ok tt }
    ensures stops { IfErr result (λ stop. StopsAtDash (map (λ n. n.now) names.now) stop.outcome) }
    ensures cause { IfErr result (λ stop. stop.cause ≡ Cause.Closed) }
{
    if !has_no_input {
        return Ok(());
    }
    for (place, name) in names.iter().enumerate() {
        if *name == "-" {
            return Err(RunStop::because(Outcome::Open(place as u32 + 1), Cause::Closed));
        }
    }
    Ok(())
}
