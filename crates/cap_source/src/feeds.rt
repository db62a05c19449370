//! A list of packets that comes one by one, from wherever it comes.
ghost use Rattle.std.specs.Prelude.{◌≡◌, IsTrue, Some};
ghost use Rattle.cap_source.specs.Feed.{Feed, GivesHead, FeedKeeps, KeepsItems, SameItems, FindsPacket, ShowsPacket};
ghost use Rattle.cap_source.specs.Feed.{FindsItem, FeedPasses, IsPacket, HasFile, IsFeed};

use crate::packets::Meta;
use cap_bytes::{CutRest, Fault, Format, Refusal};

/// What comes next of a feed, of however many files: what its caller needs to know of it, and no more.
#[derive(Clone, Copy, Debug, PartialEq, Eq)]
pub enum Head {
    /// A packet.
    Packet(Meta),
    /// A refusal, which comes again and again.
    Refused(Refusal),
    /// The end of all its files.
    End,
}

/// How a file ended.
#[derive(Clone, Copy, Debug, PartialEq, Eq)]
pub struct Ending {
    /// How many of its blocks were skipped; 0 in a pcap file.
    pub skipped: u64,
    /// The format of the file.
    pub format: Format,
    /// The rest in which it ended that was cut, and that was dropped, if it did.
    pub cut: Option<CutRest>,
}

/// How many blocks of a file were skipped of the types that are counted by themselves; none in a pcap file.
#[derive(Clone, Copy, Debug, PartialEq, Eq)]
pub struct SkippedKinds {
    /// Decryption Secrets Blocks, of type 10. draft-ietf-opsawg-pcapng, 4.8.
    pub secrets: u64,
    /// Name Resolution Blocks, of type 4. draft-ietf-opsawg-pcapng, 4.5.
    pub names: u64,
}

/// No such block was skipped.
pub const NO_KINDS: SkippedKinds = SkippedKinds {
    secrets: 0,
    names: 0,
};

/// How a file ended, or was refused, and what it has of interfaces and of skipped blocks up to there.
#[derive(Clone, Copy, Debug, PartialEq, Eq)]
pub struct FileEnd {
    /// How it ended.
    pub ending: Ending,
    /// How many interface blocks it has, of all its sections; 1 in a pcap file. draft-ietf-opsawg-pcapng, 4.2.
    pub interfaces: u64,
    /// How many of its interface blocks have an `if_name`; 0 in a pcap file. draft-ietf-opsawg-pcapng, 4.2.
    pub named: u64,
    /// How many of its skipped blocks have secrets, and how many have names.
    pub kinds: SkippedKinds,
    /// How many comments its sections, interfaces and packets have; `None` if they weren't counted, and in a pcap file,
    /// whose format has none. draft-ietf-opsawg-pcapng, 3.5.
    pub comments: Option<u64>,
}

/// What a feed holds of its files, each number being the greatest of any of them.
#[derive(Clone, Copy, Debug, PartialEq, Eq)]
pub struct FeedHeld {
    /// The bytes of a window's buffer.
    pub window: u64,
    /// The interfaces of the section that is being read; 0 for a pcap file.
    pub interfaces: u64,
    /// Whether a device has failed.
    pub failed: bool,
}

/// A list of packets, which come one by one.
pub trait PacketFeed: Drop {
    /// What it is at this moment.
    ghost feed: { Self → Feed };

    /// What comes next. It stays until it is passed, and can't fail once it is known; a refusal and the
    /// end stay for good. The packets to come stay the same, unless `Read` is returned. Returns `Read` if
    /// a device failed, with the file's number and the offset in bytes at which the header, the record or the
    /// block begins that was being read; from then on the same comes, and nothing else. Returns `Memory` if
    /// a growth was refused, and no other fault comes.
    fn head(&mut self) -> Result<Head, Fault>
        ensures answer { GivesHead (feed self.old) result (feed self.new) }
        ensures keeps { FeedKeeps (feed self.old) (feed self.new) }
        ensures items { IsTrue (feed self.old).told
            → KeepsItems (feed self.old) result (feed self.new) };

    /// Whether a packet comes next, which is known then: what `head` returns, without a copy of the packet. A refusal
    /// is returned as a fault, again and again.
    fn peek(&mut self) -> Result<bool, Fault>
        ensures answer { FindsPacket (feed self.old) result (feed self.new) }
        ensures keeps { FeedKeeps (feed self.old) (feed self.new) }
        ensures items { IsTrue (feed self.old).told
            → FindsItem (feed self.old) result (feed self.new) };

    /// Whether a packet comes next that is known already, or that is at hand without a read: it is known then. `false`
    /// says nothing of what comes next. It can't fail, so whoever takes many packets asks it first.
    fn try_peek_buffered(&mut self) -> bool
        ensures answer { ShowsPacket (feed self.old) result (feed self.new) }
        ensures keeps { FeedKeeps (feed self.old) (feed self.new) }
        ensures items { IsTrue (feed self.old).told → SameItems (feed self.old) (feed self.new) };

    /// The packet that comes next, without its bytes.
    fn packet(&self) -> &Meta
        requires packet { IsPacket (feed self.now).known }
        ensures packet { (feed self.now).known ≡ Some (Head.Packet result.now) };

    /// The captured bytes of the packet that comes next.
    fn frame(&self) -> &[u8]
        requires packet { IsPacket (feed self.now).known }
        ensures frame { result.now ≡ (feed self.now).frame };

    /// Drops the packet that comes next.
    fn pass(&mut self)
        requires packet { IsPacket (feed self.old).known }
        ensures passes { FeedPasses (feed self.old) (feed self.new) }
        ensures keeps { FeedKeeps (feed self.old) (feed self.new) };

    /// How a file of that number, which is one of the feed's, ended.
    fn ending(&self, file: u32) -> Ending
        requires end { (feed self.now).known ≡ Some Head.End }
        requires file { HasFile (feed self.now).files file }
        ensures ending { result ≡ ((feed self.now).endings file).ending };

    /// How many interfaces of a file of that number, which is one of the feed's, have a name.
    fn named_interfaces(&self, file: u32) -> u64
        requires end { (feed self.now).known ≡ Some Head.End }
        requires file { HasFile (feed self.now).files file }
        ensures named { result ≡ ((feed self.now).endings file).named };

    /// How many blocks of a file of that number, which is one of the feed's, were skipped of the types that are counted
    /// by themselves.
    fn skipped_kinds(&self, file: u32) -> SkippedKinds
        requires end { (feed self.now).known ≡ Some Head.End }
        requires file { HasFile (feed self.now).files file }
        ensures kinds { result ≡ ((feed self.now).endings file).kinds };

    /// How many comments a file of that number has, which is one of the feed's, if they are counted.
    fn comments(&self, file: u32) -> Option<u64>
        requires end { (feed self.now).known ≡ Some Head.End }
        requires file { HasFile (feed self.now).files file }
        ensures comments { result ≡ ((feed self.now).endings file).comments };

    /// What it holds.
    fn feed_held(&self) -> FeedHeld
        ensures held { result ≡ (feed self.now).held };

    /// What is always true of it.
    ghost lawful: { (x : Self) → IsFeed (feed x) };
}
