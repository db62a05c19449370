//! The class of a packet in a report.
ghost use Rattle.std.specs.Prelude.{◌≡◌, ◌≤◌, length};
ghost use Rattle.cap_class.specs.Classes.{class_of, datagram_class, lone_class};

use crate::classes::Class;
use crate::classifying::{Classified, classify};
use cap_ip::{Transport, transport};
use cap_join::Datagram;
use cap_source::Meta;

/// A datagram's class, by what its data says of its ports: `Counted` if it has them, or its protocol has none.
pub fn class_of(transport: Transport) -> Class
    ensures { result ≡ class_of transport }
{
    match transport {
        Transport::Ports(_, _) => Class::Counted,
        Transport::NoPorts => Class::Counted,
        Transport::Bad => Class::Bad,
        Transport::Cut => Class::Cut,
    }
}

/// The class of a joined datagram's frames.
#[tactic(auto, unfolding(crate::specs::Classes::datagram_class))]
pub fn joined_class(datagram: &Datagram) -> Class
    requires short { length datagram.now.payload.items ≤ 65520 }
    ensures { result ≡ datagram_class datagram.now }
{
    let bytes = datagram.payload.as_slice();
    class_of(transport(datagram.header.key().protocol, bytes, bytes.len() as u32))
}

/// The class of a packet in a report of it alone, by what is known of it and its captured bytes: `Unjoined` of a
/// fragment, since only with others it makes a datagram. RFC 791, 3.1 and 3.2; RFC 768; RFC 9293, 3.1.
#[tactic(auto, unfolding(crate::specs::Classes::lone_class))]
pub fn packet_class(meta: &Meta, frame: &[u8]) -> Class
    ensures { result ≡ lone_class meta.now frame.now }
{
    match classify(meta, frame) {
        Classified::Plain(class) => class,
        Classified::Datagram(header, captured) => {
            class_of(transport(header.key().protocol, captured, header.data_length()))
        }
        Classified::Fragment(_, _) => Class::Unjoined,
    }
}
