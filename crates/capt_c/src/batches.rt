//! Several packets in one call.
ghost use Rattle.std.specs.Prelude.{◌≡◌, ◌≤◌, ◌<◌, IsTrue, drop, length, take};
ghost use Rattle.cap_source.specs.Feed.{FeedKeeps};
ghost use Rattle.capt_c.specs.Packets.{StepsMany, Told};

use crate::packets::{CPacket, packet_of};
use crate::reading::step;
use cap_bytes::Fault;
use cap_source::PacketFeed;

// Writes the next packets that need no read, as many as there is room for, and advances past them.
fn more<F: PacketFeed>(feed: &mut F, packets: &mut [CPacket]) -> usize
    ensures most { result ≤ length packets.new }
    ensures told { IsTrue (F.feed feed.old).told
        → Told (F.feed feed.old).items (take result packets.new) (F.feed feed.new).items }
    ensures others { drop result packets.new ≡ drop result packets.old }
    ensures keeps { FeedKeeps (F.feed feed.old) (F.feed feed.new) }
{
    let mut count = 0;
    while count < packets.len() && feed.try_peek_buffered() {
        packets[count] = packet_of(feed.packet(), feed.frame());
        feed.pass();
        count += 1;
    }
    count
}

/// Writes the next packets and advances past them: one, and those after it that need no further read, as many as there
/// is room for.
pub fn step_many<F: PacketFeed>(
    feed: &mut F,
    packets: &mut [CPacket],
    count: &mut usize,
) -> Result<bool, Fault>
    requires { 0 < length packets.old }
    ensures answer { StepsMany (F.feed feed.old) packets.old result count.new packets.new (F.feed feed.new) }
    ensures keeps { FeedKeeps (F.feed feed.old) (F.feed feed.new) }
{
    *count = 0;
    let (first, others) = packets.split_at_mut(1);
    if !step(feed, &mut first[0])? {
        return Ok(false);
    }
    *count = more(feed, others) + 1;
    Ok(true)
}
