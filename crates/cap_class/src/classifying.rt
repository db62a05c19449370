//! What a captured frame is by itself.
ghost use Rattle.std.specs.Prelude.{◌≡◌, ℕ, Option};
ghost use Rattle.cap_class.specs.Taken.{classify, classify_in, stamped_of, taken};
ghost use Rattle.cap_class.specs.inner.Classifying.{IsAll, classification_of};
ghost use Rattle.cap_ip.specs.Read.{read_of};
ghost use Rattle.cap_join.specs.declared.datagrams.Stamped.{Stamped};
ghost use Rattle.cap_source.specs.Times.{meta_time};
ghost use Rattle.cap_time.specs.declared.stamps.Stamp.{Stamp};

use crate::classes::Class;
use cap_ip::{Header, HeaderOr};
use cap_join::Stamped;
use cap_link::{Network, network};
use cap_source::Meta;
use cap_time::Stamp;

/// What a captured frame is by itself (RFC 791, 3.1 and 3.2).
#[derive(Clone, Copy)]
pub enum Classified<'a> {
    /// Neither a datagram nor a fragment of one: a frame of the class `OtherLink`, `NotIpv4`, `Short`, `Cut` or `Bad`.
    Plain(Class),
    /// A whole datagram, with the captured part of its data.
    Datagram(Header, &'a [u8]),
    /// A fragment with all of its data.
    Fragment(Header, &'a [u8]),
}

// What the bytes of an IPv4 packet are.
#[inline(always)]
fn classify_ipv4(bytes: &[u8], whole: bool) -> Classified<'_>
    ensures value { (stamped : Stamped) → classification_of result stamped
        ≡ classify_in (read_of bytes.now whole) stamped }
    ensures all { IsAll result }
{
    match Header::read(bytes, whole) {
        HeaderOr::Bad => Classified::Plain(Class::Bad),
        HeaderOr::Cut => Classified::Plain(Class::Cut),
        HeaderOr::Header(header, captured) => {
            if header.fragment().is_none() {
                Classified::Datagram(header, captured)
            } else {
                Classified::Fragment(header, captured)
            }
        }
    }
}

/// What a packet's captured bytes are by themselves: a whole datagram, a fragment, or neither. `meta` is what is known
/// of the packet beside them: its link type and how many bytes it had.
#[tactic(auto, unfolding(crate::specs::Taken::classify))]
#[inline(always)]
pub fn classify<'a>(meta: &Meta, frame: &'a [u8]) -> Classified<'a>
    ensures value { (clock : Option Stamp) (place : ℕ)
        → classification_of result (stamped_of place meta.now) ≡ classify place (taken clock meta.now frame.entry.now) }
    ensures all { IsAll result }
{
    let whole = frame.len() >= meta.original as usize;
    match network(meta.interface.link, frame, meta.original) {
        Network::Ipv4(bytes) => classify_ipv4(bytes, whole),
        Network::OtherLink => Classified::Plain(Class::OtherLink),
        Network::NotIpv4 => Classified::Plain(Class::NotIpv4),
        Network::Short => Classified::Plain(Class::Short),
        Network::Cut => Classified::Plain(Class::Cut),
    }
}

/// What a joiner keeps of a packet's frame: its place in the run, its time, which is the packet's, and how many bytes
/// it had.
#[inline(always)]
pub fn stamped_of(place: u64, time: Option<Stamp>, meta: &Meta) -> Stamped
    requires time { time ≡ meta_time meta.now }
    ensures { result ≡ stamped_of place meta.now }
{
    Stamped {
        time,
        place,
        original: meta.original,
    }
}
