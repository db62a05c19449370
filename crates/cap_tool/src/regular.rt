//! Regular files: which of them are the same, and how large they are.
ghost use Rattle.std.specs.Prelude.{◌≡◌, ◌↔◌, Contains, IsTrue, IsSomeAnd, Some, option_map};
ghost use Rattle.cap_tool.specs.Regular.{regular_in, type_by};

use std::fs;
use std::fs::{File, Metadata};
use std::os::unix::fs::MetadataExt;
use std::rt::Files;

/// A regular file, under whatever name it was opened: all its names, relative and absolute ones, symbolic
/// and hard links, give the same.
#[derive(Clone, Copy, PartialEq, Eq)]
pub struct FileId {
    /// The number of the device that the file is on.
    pub device: u64,
    /// The number of the file on its device.
    pub number: u64,
}

/// What is known of a regular file.
#[derive(Clone, Copy)]
pub struct Regular {
    /// Which one it is.
    pub id: FileId,
    /// How many bytes it has.
    pub size: u64,
}

/// What a file is, as far as it can be found out.
#[derive(Clone, Copy)]
pub enum FileType {
    /// A regular file.
    Regular(Regular),
    /// A folder.
    Folder,
    /// A device or a pipe, or what can't be found out.
    Other,
}

impl FileType {
    /// A regular file, with what is known of it, or something else.
    pub fn of_regular(regular: Option<Regular>) -> FileType
        ensures { result ≡ type_by regular }
    {
        match regular {
            Some(regular) => FileType::Regular(regular),
            None => FileType::Other,
        }
    }

    /// What is known of it, if it is a regular file.
    pub fn regular(self) -> Option<Regular>
        ensures { result ≡ regular_in self }
    {
        match self {
            FileType::Regular(regular) => Some(regular),
            FileType::Folder | FileType::Other => None,
        }
    }
}

/// What the system tells of a regular file; none of a device, a pipe and a folder.
pub fn regular_of(metadata: &Metadata) -> Option<Regular> {
    if metadata.is_file() {
        Some(Regular {
            id: FileId {
                device: metadata.dev(),
                number: metadata.ino(),
            },
            size: metadata.len(),
        })
    } else {
        None
    }
}

/// What a file is that is open.
pub fn type_of(file: &File) -> FileType {
    match file.metadata() {
        Ok(metadata) if metadata.is_dir() => FileType::Folder,
        Ok(metadata) => FileType::of_regular(regular_of(&metadata)),
        Err(_) => FileType::Other,
    }
}

/// What is known of a file that is open, if it is a regular one and that can be found out.
pub fn regular_file(file: &File) -> Option<Regular> {
    regular_of(&file.metadata().ok()?)
}

/// The path of the file that is read under that name: `-` is standard input.
pub fn path_of(name: &str) -> &str {
    if name == "-" { "/dev/stdin" } else { name }
}

/// What is known of the file of that name, if it is a regular one and that can be found out.
pub fn regular_at<R: Files<File = File>>(files: &R, name: &str) -> Option<Regular> {
    regular_of(&fs::metadata(files, name).ok()?)
}

/// Which regular file it is, if it is one.
pub fn id_of(regular: Option<Regular>) -> Option<FileId>
    ensures { result ≡ option_map (λ r. r.id) regular }
{
    Some(regular?.id)
}

/// Which regular file standard output goes to, if it goes to one and that can be found out.
pub fn standard_id<R: Files<File = File>>(files: &R) -> Option<FileId> {
    id_of(regular_at(files, "/dev/stdout"))
}

/// Whether a regular file is one of those of these names, of which `-` is standard input.
pub fn is_any_input<R: Files<File = File>>(files: &R, id: Option<FileId>, names: &[&str]) -> bool {
    for name in names.iter() {
        if is_input(id, &[id_of(regular_at(files, path_of(name)))]) {
            return true;
        }
    }
    false
}

/// Whether a file that is to be written is one of those that are read. What is no regular file is none.
pub fn is_input(output: Option<FileId>, inputs: &[Option<FileId>]) -> bool
    ensures { IsTrue result ↔ IsSomeAnd output (λ id. Contains inputs.now (Some id)) }
{
    match output {
        Some(id) => inputs.contains(&Some(id)),
        None => false,
    }
}
