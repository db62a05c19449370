//! What a file is that isn't read, by its first bytes.
ghost use Rattle.std.specs.Prelude.{◌≡◌};
ghost use Rattle.cap_tool.specs.Kinds.{kind_by};

use crate::regular::{path_of, regular_at};
use std::fs::File;
use std::io::Read;
use std::rt::Files;

/// What the first four bytes of a file say that it is.
#[derive(Clone, Copy, Debug, PartialEq, Eq)]
pub enum Kind {
    /// A pcap file.
    Pcap,
    /// A file of the modified pcap format, whose records have more fields: no draft describes it.
    ModifiedPcap,
    /// A file that gzip compressed.
    Gzip,
    /// A file that Zstandard compressed.
    Zstd,
    /// A file that xz compressed.
    Xz,
    /// A file that LZ4 compressed.
    Lz4,
    /// A file that bzip2 compressed.
    Bzip2,
    /// None of these.
    Other,
}

/// The kind of a file whose first four bytes spell that number, the first being the highest.
pub fn kind_of(magic: u32) -> Kind
    ensures { result ≡ kind_by magic }
{
    match magic {
        0xd4c3_b2a1 | 0xa1b2_c3d4 | 0x4d3c_b2a1 | 0xa1b2_3c4d => Kind::Pcap,
        0x34cd_b2a1 | 0xa1b2_cd34 => Kind::ModifiedPcap,
        0x28b5_2ffd => Kind::Zstd,
        0xfd37_7a58 => Kind::Xz,
        0x0422_4d18 => Kind::Lz4,
        _ => {
            if magic / 0x1_0000 == 0x1f8b {
                Kind::Gzip
            } else if magic / 0x100 == 0x42_5a68 {
                Kind::Bzip2
            } else {
                Kind::Other
            }
        }
    }
}

// The first four bytes of a regular file.
fn magic_at<R: Files<File = File>>(files: &R, path: &str) -> Option<u32> {
    regular_at(files, path)?;
    let mut file = File::open(files, path).ok()?;
    let mut first = [0u8; 4];
    file.read_exact(&mut first).ok()?;
    Some(u32::from_be_bytes(first))
}

/// The kind of the file of that name, of which `-` is standard input. What isn't a regular file, or can't be read, is
/// `Kind::Other`.
pub fn kind_at<R: Files<File = File>>(files: &R, name: &str) -> Kind {
    match magic_at(files, path_of(name)) {
        Some(magic) => kind_of(magic),
        None => Kind::Other,
    }
}
