//! Why a run stopped, as it is known where it failed.
ghost use Rattle.std.specs.Prelude.{◌≡◌, Option, ℤ};
ghost use Rattle.cap_tool.specs.Causes.{cause_of_error};

use std::alloc::AllocError;
use std::io;

/// Why a run stopped, as it is known where it failed.
#[derive(Debug, PartialEq, Eq, Drop)]
pub enum Cause {
    /// It isn't known.
    Unknown,
    /// There was no memory.
    Memory,
    /// The system's error of that number, at the file itself.
    System(i32),
    /// The system's error of that number, at a file beside the output.
    Beside {
        /// The name of that file.
        name: String,
        /// The number of the error.
        error: i32,
    },
    /// Standard input is closed.
    Closed,
    /// A file that is read is a folder.
    Folder,
    /// The output is one of the files that are read.
    IsInput,
    /// The output is a terminal, which can't show a capture.
    IsTerminal,
    /// The output is to be replaced, and isn't a regular file.
    NotRegular,
    /// The name of the output leads through too many symbolic links.
    Links,
}

impl Cause {
    /// The system's error of that number, if it has one.
    pub fn of_error(error: Option<i32>) -> Cause
        ensures { result ≡ cause_of_error error }
    {
        match error {
            Some(error) => Cause::System(error),
            None => Cause::Unknown,
        }
    }
}

impl From<io::Error> for Cause {
    ghost use Rattle.std.specs.IoError.{raw_os_error};

    ghost from_gives = { λ error cause. cause ≡ cause_of_error (raw_os_error error) };

    fn from(error: io::Error) -> Cause {
        Cause::of_error(error.raw_os_error())
    }
}

impl From<AllocError> for Cause {
    ghost use Rattle.cap_tool.specs.declared.causes.Cause.TheVariants.{Memory};

    ghost from_gives = { λ _ cause. cause ≡ Memory };

    fn from(_error: AllocError) -> Cause {
        Cause::Memory
    }
}
