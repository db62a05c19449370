//! An output that takes its name once all is done.
ghost use Rattle.std.specs.Prelude.{◌≡◌, IfErr, IfOk, IsErr, IsOk};
ghost use Rattle.cap_bytes.specs.declared.faults.Fault.TheVariants.{Write};
ghost use Rattle.cap_tool.specs.Streams.{IsOutFile, StopsCreating};

use crate::causes::Cause;
use crate::outcomes::{Outcome, RunStop};
use crate::regular::{FileId, id_of, is_input, regular_of};
use crate::streams::Output;
use cap_bytes::Fault;
use cap_commands::DroppedInfo;
use std::alloc::{AllocError, Global};
use std::fs::{File, OpenOptions, Permissions};
use std::io::ErrorKind;
use std::rt::Files;
use std::{fs, io};

// How many symbolic links are followed from the name of an output, as the system does.
const LINKS: u32 = 40;

/// A file that is written beside the one whose name it takes once all is done.
#[derive(Drop)]
pub struct AtomicOutput {
    file: File,
    name: String,
    target: String,
}

// The name that a symbolic link leads to, if the name is one's: as it is written there, or in the link's folder if it
// begins with no `/`.
fn followed<R: Files<File = File>>(
    files: &R,
    alloc: Global,
    name: &str,
) -> Result<Option<String>, AllocError> {
    let Ok(path) = files.read_link(alloc, name) else {
        return Ok(None);
    };
    let target = path.into_string();
    let behind = match name.rfind('/') {
        Some(slash) if !target.as_str().starts_with("/") => slash + 1,
        _ => 0,
    };
    let mut whole = String::from_str(alloc, name)?;
    whole.truncate(behind);
    whole.push_str(target.as_str())?;
    Ok(Some(whole))
}

// The name of a file behind its symbolic links, also if there is no such file yet.
fn real_name<R: Files<File = File>>(files: &R, alloc: Global, name: &str) -> Result<String, Cause> {
    if let Ok(path) = files.canonicalize(alloc, name) {
        return Ok(path.into_string());
    }
    let mut name = String::from_str(alloc, name)?;
    for _ in 0..LINKS {
        match followed(files, alloc, name.as_str())? {
            Some(next) => name = next,
            None => return Ok(name),
        }
    }
    Err(Cause::Links)
}

// The permissions of the file that is to be replaced, if there is one: a regular file that may be written, and none of
// the inputs.
fn replaceable<R: Files<File = File>>(
    files: &R,
    name: &str,
    inputs: &[Option<FileId>],
) -> Result<Option<Permissions>, Cause> {
    let Ok(metadata) = fs::metadata(files, name) else {
        return Ok(None);
    };
    if !metadata.is_file() {
        return Err(Cause::NotRegular);
    }
    OpenOptions::new().write(true).open(files, name)?;
    if is_input(id_of(regular_of(&metadata)), inputs) {
        return Err(Cause::IsInput);
    }
    Ok(Some(metadata.permissions()))
}

// Why a file of that name could not be created beside the output, by what the system said.
fn beside_cause(name: String, error: &io::Error) -> Cause {
    match error.raw_os_error() {
        Some(error) => Cause::Beside { name, error },
        None => Cause::Unknown,
    }
}

// Creates a file that wasn't there, of the name of the target with the least number after it that is free.
fn create_new<R: Files<File = File>>(
    files: &R,
    alloc: Global,
    target: &str,
) -> Result<(File, String), Cause> {
    for number in 1..u32::MAX {
        let Ok(name) = format!(in alloc; "{target}.capt-{number}") else {
            return Err(Cause::Memory);
        };
        let opened = OpenOptions::new()
            .write(true)
            .create_new(true)
            .open(files, name.as_str());
        match opened {
            Ok(file) => return Ok((file, name)),
            Err(error) if error.kind() == ErrorKind::AlreadyExists => {}
            Err(error) => return Err(beside_cause(name, &error)),
        }
    }
    Err(Cause::Unknown)
}

// Creates a file beside the one of that name.
fn open_beside<R: Files<File = File>>(
    files: &R,
    alloc: Global,
    name: &str,
    inputs: &[Option<FileId>],
) -> Result<(File, AtomicOutput), Cause> {
    let permissions = replaceable(files, name, inputs)?;
    let target = real_name(files, alloc, name)?;
    let (file, name) = create_new(files, alloc, target.as_str())?;
    if let Some(permissions) = permissions {
        // if they can't be set, the file keeps those of a new file
        let _ = file.set_permissions(permissions);
    }
    let beside = AtomicOutput { file, name, target };
    match beside.file.try_clone() {
        Ok(written) => Ok((written, beside)),
        Err(error) => {
            beside.remove(files);
            Err(Cause::from(error))
        }
    }
}

/// Creates the output of a run beside the file of that name, which stays as it is until the run is committed. Returns
/// `Outcome::Create`, and no other outcome, with the reason, if it can't be created, and if the file of that name is no
/// regular one or one of the inputs.
pub fn create_beside<R: Files<File = File>>(
    files: &R,
    alloc: Global,
    name: &str,
    inputs: &[Option<FileId>],
) -> Result<(Output, AtomicOutput), RunStop>
    ensures file { IfOk result (λ made. IsOutFile made.0) }
    ensures stops { IfErr result StopsCreating }
{
    match open_beside(files, alloc, name, inputs) {
        Ok((file, beside)) => Ok((Output::File(file), beside)),
        Err(cause) => Err(RunStop::create(cause)),
    }
}

impl AtomicOutput {
    // Gives the file its name, once the disk has it.
    fn rename<R: Files<File = File>>(&self, files: &R) -> io::Result<()> {
        self.file.sync_all()?;
        fs::rename(files, self.name.as_str(), self.target.as_str())
    }

    /// Removes the file.
    pub fn remove<R: Files<File = File>>(&self, files: &R) {
        // a file that can't be removed stays: the run reports its own failure
        let _ = fs::remove_file(files, self.name.as_str());
    }

    /// Commits the output of a run that ended so. If all was done, the file takes the name of the output, and the run
    /// ends by `Fault::Write` if it can't. Else the file is removed, the output is as it was, and the run ends as it
    /// did.
    pub fn commit<R: Files<File = File>>(
        &self,
        files: &R,
        answer: Result<DroppedInfo, RunStop>,
    ) -> Result<DroppedInfo, RunStop>
        ensures stopped { IsErr answer → result ≡ answer }
        ensures left { IfOk answer (λ left. IfOk result (λ committed. committed ≡ left)) }
        ensures done { IsOk answer → IfErr result (λ stop. stop.outcome ≡ Outcome.Fault Write) }
    {
        let stop = match answer {
            Ok(left) => match self.rename(files) {
                Ok(()) => return Ok(left),
                Err(error) => { RunStop::because(Outcome::Fault(Fault::Write), Cause::from(error)) }
            },
            Err(stop) => stop,
        };
        self.remove(files);
        Err(stop)
    }
}
