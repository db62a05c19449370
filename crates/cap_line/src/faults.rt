//! Why a command line isn't run.

use thiserror::Error;

/// What is returned in place of a job.
#[derive(Clone, Copy, Debug, PartialEq, Eq, Error)]
pub enum LineFault {
    /// Help or the version was asked for.
    #[error("help was asked for")]
    Help,
    /// The words aren't a command line of capt, or aren't all UTF-8.
    #[error("no command line of capt")]
    Line,
    /// More files are named than the task takes: more than 32, of `digest` and `check` more than 4,294,967,295.
    #[error("fault: files")]
    Files,
    /// Standard input, `-`, is named twice.
    #[error("fault: input")]
    Input,
    /// The output, other than `-`, is also a file that is read. Texts are compared.
    #[error("fault: output")]
    Output,
    /// A growth was refused.
    #[error("fault: memory")]
    Memory,
}
