//! The files and the standard streams of a run.
ghost use Rattle.std.specs.Prelude.{◌≡◌, ◌≢◌, ◌≤◌, ◌+◌, ◌++◌, ◌∷◌, [], codes, length, map, vec_len, IfOk, IfErr};
ghost use Rattle.std.specs.Prelude.{Contains, Err, IfSome, IsErr, IsFalse, IsSomeAnd, IsTrue, option_map, Some, None};
ghost use Rattle.cap_commands.specs.Left.{nothing_left};
ghost use Rattle.cap_tool.specs.CheckedNames.{AreGiven};
ghost use Rattle.cap_tool.specs.Streams.{IsOutFile, IsStandardOut, StopsOpening, StopsCreating, is_dash, is_standard};

use crate::causes::Cause;
use crate::openers::Opener;
use crate::outcomes::{Outcome, RunStop};
use crate::regular::{
    FileId, FileType, Regular, id_of, is_any_input, is_input, regular_at, regular_file, regular_of,
    standard_id, type_of,
};
use std::alloc::{AllocError, Global};
use std::fs::{File, OpenOptions};
use std::io;
use std::io::{IsTerminal, Read, Stdin, Stdout, Write};
use std::rt::Files;

/// What a capture is read from.
#[derive(Drop)]
pub enum Input {
    /// A file that was opened.
    File(File),
    /// Standard input.
    Standard(Stdin),
}

impl Input {
    /// Takes standard input if the name is `-`, and opens the file of that name else.
    pub fn open<R: Files<File = File>>(files: &R, standard: Stdin, name: &str) -> io::Result<Input>
        ensures standard { name.now ≡ codes "-" → result ≡ Ok (Input.Standard standard) }
        ensures which { IfOk result (λ input. is_standard input ≡ is_dash name.now) }
        ensures fault { IsErr result → IsFalse (is_dash name.now) }
    {
        if name == "-" {
            return Ok(Input::Standard(standard));
        }
        Ok(Input::File(File::open(files, name)?))
    }

    /// What the file is that is read; of standard input only whether it is a regular file, and which.
    pub fn file_type<R: Files<File = File>>(&self, files: &R) -> FileType {
        match self {
            Input::File(file) => type_of(file),
            Input::Standard(_) => FileType::of_regular(regular_at(files, "/dev/stdin")),
        }
    }
}

impl Read for Input {
    fn read(&mut self, buffer: &mut [u8]) -> io::Result<usize> {
        match self {
            Input::File(file) => file.read(buffer),
            Input::Standard(standard) => standard.read(buffer),
        }
    }
}

/// What the packets or the lines are written to.
#[derive(Drop)]
pub enum Output {
    /// A file that was created, or emptied if there was one.
    File(File),
    /// Standard output.
    Standard(Stdout),
}

// Empties a file that is open, if it is a regular one. One of the inputs is refused, and stays as it is.
fn empty(file: &File, inputs: &[Option<FileId>]) -> Result<(), Cause> {
    let id = id_of(regular_of(&file.metadata()?));
    if is_input(id, inputs) {
        return Err(Cause::IsInput);
    }
    if id.is_some() {
        file.set_len(0)?;
    }
    Ok(())
}

// Opens a file to be written and empties it, unless it is one of the inputs: then it stays as it is.
fn create_file<R: Files<File = File>>(
    files: &R,
    name: &str,
    inputs: &[Option<FileId>],
) -> Result<File, Cause> {
    let file = OpenOptions::new()
        .write(true)
        .create(true)
        .open(files, name)?;
    empty(&file, inputs)?;
    Ok(file)
}

impl Output {
    /// Takes standard output if the name is `-`, and creates the file of that name else, or empties it
    /// if there is one. A file that is one of the inputs is refused, and isn't changed.
    pub fn create<R: Files<File = File>>(
        files: &R,
        standard: Stdout,
        name: &str,
        inputs: &[Option<FileId>],
    ) -> Result<Output, Cause>
        ensures standard { name.now ≡ codes "-" → result ≡ Ok (Output.Standard standard) }
        ensures file { name.now ≢ codes "-" → IfOk result IsOutFile }
    {
        if name == "-" {
            return Ok(Output::Standard(standard));
        }
        Ok(Output::File(create_file(files, name, inputs)?))
    }

    /// Whether someone sees what is written as it comes: it goes to a terminal, by standard output.
    pub fn is_terminal(&self) -> bool
        ensures { IsTrue result → IsStandardOut self.now }
    {
        match self {
            Output::File(_) => false,
            Output::Standard(standard) => standard.is_terminal(),
        }
    }

    /// Whether it goes to a regular file.
    pub fn is_regular<R: Files<File = File>>(&self, files: &R) -> bool {
        match self {
            Output::File(file) => regular_file(file).is_some(),
            Output::Standard(_) => regular_at(files, "/dev/stdout").is_some(),
        }
    }
}

impl Write for Output {
    fn write(&mut self, bytes: &[u8]) -> io::Result<usize> {
        match self {
            Output::File(file) => file.write(bytes),
            Output::Standard(standard) => standard.write(bytes),
        }
    }

    fn flush(&mut self) -> io::Result<()> {
        match self {
            Output::File(file) => file.flush(),
            Output::Standard(standard) => standard.flush(),
        }
    }
}

// Standard output, which may go to a regular file. Returns `Outcome::Create` if that is one of the inputs: what is
// written there would be read again, or would replace what is still to be read.
fn standard_output(
    standard: Stdout,
    goes_to: Option<FileId>,
    inputs: &[Option<FileId>],
) -> Result<Output, RunStop>
    ensures input { IsSomeAnd goes_to (λ i. Contains inputs.now (Some i))
        → result ≡ Err (record { outcome = Outcome.Create; cause = Cause.IsInput; left = nothing_left }) }
    ensures other { (IsSomeAnd goes_to (λ i. Contains inputs.now (Some i)) → ⊥)
        → result ≡ Ok (Output.Standard standard) }
{
    if is_input(goes_to, inputs) {
        Err(RunStop::create(Cause::IsInput))
    } else {
        Ok(Output::Standard(standard))
    }
}

/// Creates the output of a run, which is standard output if none is named. Returns
/// `Outcome::Create`, and no other outcome, with the reason, if it can't be created, and if it is one of the inputs,
/// under whatever name: then it isn't changed. Standard output may be one of the inputs as well, as in
/// `capt list a >> a`.
pub fn create_output<R: Files<File = File>>(
    files: &R,
    standard: Stdout,
    name: Option<&str>,
    inputs: &[Option<FileId>],
) -> Result<Output, RunStop>
    ensures standard { option_map (λ n. n.now) name.entry ≡ None → IfOk result (λ o. o ≡ Output.Standard standard) }
    ensures dash { option_map (λ n. n.now) name.entry ≡ Some (codes "-")
        → IfOk result (λ o. o ≡ Output.Standard standard) }
    ensures file { IfSome name.entry (λ n. n.now ≢ codes "-" → IfOk result IsOutFile) }
    ensures stops { IfErr result StopsCreating }
{
    match name {
        Some(name) if name != "-" => {
            Output::create(files, standard, name, inputs).map_err(RunStop::create)
        }
        _ => standard_output(standard, standard_id(files), inputs),
    }
}

/// Refuses to print lines into one of the files of these names, of which `-` is standard input: returns
/// `Outcome::Create`, and no other outcome, if standard output goes to one of them.
pub fn check_output<R: Files<File = File>>(files: &R, names: &[&str]) -> Result<(), RunStop>
    ensures stops { IfErr result StopsCreating }
    ensures cause { IfErr result (λ stop. stop.cause ≡ Cause.IsInput) }
{
    let id = standard_id(files);
    if id.is_some() && is_any_input(files, id, names) {
        Err(RunStop::create(Cause::IsInput))
    } else {
        Ok(())
    }
}

/// Refuses standard output, `-`, for a capture if it is a terminal: returns `Outcome::Create`, and no other outcome.
pub fn check_terminal(standard: Stdout, name: Option<&str>) -> Result<(), RunStop>
    ensures other { option_map (λ n. n.now) name.entry ≢ Some (codes "-") → result ≡ Ok tt }
    ensures stops { IfErr result StopsCreating }
    ensures cause { IfErr result (λ stop. stop.cause ≡ Cause.IsTerminal) }
{
    if name == Some("-") && standard.is_terminal() {
        Err(RunStop::create(Cause::IsTerminal))
    } else {
        Ok(())
    }
}

/// The inputs of a run.
#[derive(Drop)]
pub struct Inputs<R> {
    /// What is read, in the order of the names.
    pub sources: Vec<R>,
    /// Which regular file each of them is, if it is one and that can be found out.
    pub ids: Vec<Option<FileId>>,
    /// Whether each of them is a folder.
    pub folders: Vec<bool>,
    /// How many bytes they have together, if each of them is a regular file.
    pub size: Option<u64>,
}

// That many bytes and those of one file more, if both are known.
fn add_size(size: Option<u64>, regular: Option<Regular>) -> Option<u64> {
    size?.checked_add(regular?.size)
}

impl<R: Drop> Inputs<R> {
    // Adds an input, which is a file of that type.
    fn add(&mut self, input: R, file_type: FileType) -> Result<(), AllocError>
        ensures all { IfOk result (λ _. self.new.sources.items ≡ self.old.sources.items ++ input ∷ []) }
        ensures len { IfOk result (λ _. vec_len self.new.sources ≡ vec_len self.old.sources + 1) }
    {
        let regular = file_type.regular();
        self.ids.push(id_of(regular))?;
        self.folders.push(matches!(file_type, FileType::Folder))?;
        self.sources.push(input)?;
        self.size = add_size(self.size, regular);
        Ok(())
    }
}

/// Opens every file of a run, in order, and reads none: each input is what the opener gives for its name. Returns
/// `Outcome::Open` with the number, from 1, of the first that it can't open, and why, or `Fault::Memory` if a growth is
/// refused.
pub fn open_all<O: Opener>(
    opener: &O,
    alloc: Global,
    names: &[&str],
) -> Result<Inputs<O::Reader>, RunStop>
    requires most { length names.now ≤ 4294967295 }
    ensures all { IfOk result (λ inputs. AreGiven (O.gives opener.now) (map (λ n. n.now) names.now)
        (map Some inputs.sources.items)) }
    ensures len { IfOk result (λ inputs. vec_len inputs.sources ≡ length names.now) }
    ensures stops { IfErr result (λ stop. StopsOpening (O.gives opener.now) (map (λ n. n.now) names.now)
        stop.outcome) }
{
    let mut inputs = Inputs {
        sources: Vec::new(alloc),
        ids: Vec::new(alloc),
        folders: Vec::new(alloc),
        size: Some(0),
    };
    for (place, name) in names.iter().enumerate() {
        let (input, file_type) = match opener.open(name) {
            Ok(opened) => opened,
            Err(cause) => return Err(RunStop::because(Outcome::Open(place as u32 + 1), cause)),
        };
        if inputs.add(input, file_type).is_err() {
            return Err(RunStop::memory());
        }
    }
    Ok(inputs)
}
