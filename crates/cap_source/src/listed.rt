//! Packets without bytes in memory: a feed that isn't read of a file.
ghost use Rattle.std.specs.Prelude.{◌≡◌, ◌≤◌, ◌^◌, None, drop, length, take};
ghost use Rattle.std.specs.Option.{ForSome};
ghost use Rattle.cap_source.specs.inner.Listed.{head_at, list_feed, lists_lawful};

use crate::feeds::{Ending, FeedHeld, Head, NO_KINDS, PacketFeed, SkippedKinds};
use crate::packets::Meta;
use cap_bytes::{Fault, Format, Refusal, Rule};
use cap_time::Interface;

// The most packets that a list gives.
const LIST_LIMIT: usize = 0x100_0000_0000;

/// The packets of one file, in memory, as a feed that never fails: packets of one interface and without bytes, of which
/// the times are known. A packet's offset is its place in the list, from 0 on.
#[derive(Drop)]
pub struct Listed {
    file: u32,
    interface: Interface,
    times: Vec<u64>,
    end: Option<Rule>,
    place: usize,
    // what comes next, once it was asked for
    next: Option<Head>,
    ghost most: { length times.items ≤ 2 ^ 40 },
    ghost within: { place ≤ length times.items },
    ghost known: { ForSome next (λ head. head ≡ head_at file interface end place (drop place times.items)) },
}

impl Listed {
    /// Packets at the first 2^40 of these times, in units of the interface's resolution, as the file of that number,
    /// and then a refusal by that rule, if by one. Takes no memory.
    pub fn new(file: u32, interface: Interface, times: Vec<u64>, end: Option<Rule>) -> Listed
        ensures { ⟦<Listed as PacketFeed>⟧.feed result
            ≡ list_feed file interface end 0 (take (2 ^ 40) times.items) None }
    {
        let mut times = times;
        times.truncate(LIST_LIMIT);
        Listed {
            file,
            interface,
            times,
            end,
            place: 0,
            next: None,
        }
    }

    // What comes next.
    fn head_here(&self) -> Head
        ensures { result ≡ head_at self.now.file self.now.interface self.now.end self.now.place
            (drop self.now.place self.now.times.items) }
    {
        match (self.times.get(self.place), self.end) {
            (Some(units), _) => Head::Packet(Meta {
                file: self.file,
                offset: self.place as u64,
                format: Format::Pcap,
                skipped: 0,
                instance: 0,
                interface: self.interface,
                units: Some(*units),
                captured: 0,
                original: 0,
            }),
            (None, Some(rule)) => Head::Refused(Refusal {
                file: self.file,
                offset: self.place as u64,
                rule,
            }),
            (None, None) => Head::End,
        }
    }
}

impl PacketFeed for Listed {
    ghost feed = { λ l. list_feed l.file l.interface l.end l.place (drop l.place l.times.items) l.next };

    fn head(&mut self) -> Result<Head, Fault> {
        match self.next {
            Some(head) => Ok(head),
            None => {
                let head = self.head_here();
                self.next = Some(head);
                Ok(head)
            }
        }
    }

    fn peek(&mut self) -> Result<bool, Fault> {
        match self.head()? {
            Head::Packet(_) => Ok(true),
            Head::Refused(refusal) => Err(Fault::Refused(refusal)),
            Head::End => Ok(false),
        }
    }

    fn try_peek_buffered(&mut self) -> bool {
        let head = match self.next {
            Some(head) => head,
            None => self.head_here(),
        };
        self.next = Some(head);
        match head {
            Head::Packet(_) => true,
            Head::Refused(_) => false,
            Head::End => false,
        }
    }

    fn packet(&self) -> &Meta {
        match &self.next {
            Some(Head::Packet(meta)) => meta,
            _ => unreachable!(),
        }
    }

    fn frame(&self) -> &[u8] {
        &[]
    }

    fn pass(&mut self) {
        self.place += 1;
        self.next = None;
    }

    fn ending(&self, _file: u32) -> Ending {
        Ending {
            format: Format::Pcap,
            skipped: 0,
            cut: None,
        }
    }

    fn named_interfaces(&self, _file: u32) -> u64 {
        0
    }

    fn skipped_kinds(&self, _file: u32) -> SkippedKinds {
        NO_KINDS
    }

    fn comments(&self, _file: u32) -> Option<u64> {
        None
    }

    fn feed_held(&self) -> FeedHeld {
        FeedHeld {
            window: 0,
            interfaces: 0,
            failed: false,
        }
    }

    ghost lawful = { λ l. lists_lawful l.file l.interface l.end l.place l.times.items l.next l.most l.within l.known };
}
