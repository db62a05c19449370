//! Going through a feed, packet by packet.
ghost use Rattle.std.specs.Prelude.{IsTrue};
ghost use Rattle.cap_source.specs.Feed.{FeedKeeps};
ghost use Rattle.cap_source.specs.inner.Walk.{GivesPacket, ShowsItem};

use crate::feeds::PacketFeed;
use crate::packets::Meta;
use cap_bytes::Fault;

/// What comes next of a feed: a packet, which stays until it is passed, or none at the end. `Refused`
/// comes if a refusal comes next, `Read` if a device failed, and `Memory` if a growth was
/// refused. The packets to come stay the same, unless `Read` is returned.
#[inline(always)]
pub fn next_packet<F: PacketFeed>(feed: &mut F) -> Result<Option<Meta>, Fault>
    ensures answer { GivesPacket (F.feed feed.old) result (F.feed feed.new) }
    ensures keeps { FeedKeeps (F.feed feed.old) (F.feed feed.new) }
    ensures items { IsTrue (F.feed feed.old).told
        → ShowsItem (F.feed feed.old) result (F.feed feed.new) }
{
    if feed.peek()? {
        Ok(Some(*feed.packet()))
    } else {
        Ok(None)
    }
}
