//! What a check does with packets besides counting them: it digests them, or nothing.
ghost use Rattle.std.specs.Prelude.{◌≡◌, ◌++◌, ℕ, Bool, List, true, false, ⊤};
ghost use Rattle.cap_digest.specs.Canonical.{canonical_head};
ghost use Rattle.cap_digest.specs.DigestText.{digest_if};
ghost use Rattle.cap_digest.specs.inner.Digesting.{HoldsText};
ghost use Rattle.cap_source.specs.Feed.{IsPacket};

use cap_digest::PacketDigest;
use cap_source::{Meta, PacketFeed};

/// What takes the packets of a file one after another, to give their digest if one is asked for. A check is compiled
/// for each implementation, so that one without a digest does no work for it.
pub(crate) trait Digesting: Drop {
    /// Whether a digest is asked for.
    ghost ASKED: { Bool };

    /// It has taken the packets of that canonical text.
    ghost holds: { Self → List ℕ → Type 0 };

    /// Takes the packet that comes next of a feed.
    fn take<F: PacketFeed>(&mut self, meta: &Meta, feed: &F)
        requires packet { IsPacket (F.feed feed.now).known }
        ensures { (text : List ℕ) → holds self.old text
            → holds self.new (text ++ canonical_head meta.now ++ (F.feed feed.now).frame) };

    /// The digest of the packets that it has taken, if one is asked for.
    fn finish(self) -> Option<[u8; 32]>
        ensures { (text : List ℕ) → holds self text → result ≡ digest_if ASKED text };
}

impl Digesting for PacketDigest {
    ghost ASKED = { true };

    ghost holds = { λ d text. HoldsText d text };

    fn take<F: PacketFeed>(&mut self, meta: &Meta, feed: &F) {
        PacketDigest::take(self, meta, feed.frame())
    }

    fn finish(self) -> Option<[u8; 32]> {
        Some(PacketDigest::finish(self))
    }
}

/// No digest is asked for.
#[derive(Drop)]
pub(crate) struct NoDigest;

impl Digesting for NoDigest {
    ghost ASKED = { false };

    ghost holds = { λ d text. ⊤ };

    #[inline(always)]
    fn take<F: PacketFeed>(&mut self, _meta: &Meta, _feed: &F) {}

    #[inline(always)]
    fn finish(self) -> Option<[u8; 32]> {
        None
    }
}
