//! A digest of packets that are taken one after another.
ghost use Rattle.std.specs.Prelude.{◌≡◌, ◌++◌, [], ℕ, List};
ghost use Rattle.cap_digest.specs.Canonical.{canonical_head};
ghost use Rattle.cap_digest.specs.inner.Digesting.{HoldsText};
ghost use Rattle.sha2.specs.Sha256.{sha256};

use crate::canonical::head_of;
use cap_source::Meta;
use sha2::{Digest, Sha256};

/// The packets that were taken so far, of which `finish` returns the digest: the SHA-256 (FIPS 180-4) of their
/// canonical text. This holds of each packet the link type, both lengths, the exact time and the captured bytes, and
/// nothing of format, byte order and units.
#[derive(Drop)]
pub struct PacketDigest {
    hasher: Sha256,
}

impl PacketDigest {
    /// No packet is taken yet.
    pub fn new() -> PacketDigest
        ensures { HoldsText result [] }
    {
        PacketDigest {
            hasher: Sha256::new(),
        }
    }

    /// Takes one more packet, with its captured bytes, after those that were taken.
    pub fn take(&mut self, meta: &Meta, frame: &[u8])
        ensures { (text : List ℕ) → HoldsText self.old text
            → HoldsText self.new (text ++ canonical_head meta.now ++ frame.now) }
    {
        self.hasher.update(head_of(meta));
        self.hasher.update(frame);
    }

    /// The digest of all packets that were taken.
    pub fn finish(self) -> [u8; 32]
        ensures { (text : List ℕ) → HoldsText self text → result ≡ sha256 text }
    {
        self.hasher.finalize()
    }
}
