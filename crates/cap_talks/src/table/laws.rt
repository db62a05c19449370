//! Laws of conversations.
ghost use Rattle.std.specs.Prelude.{ℕ, List};
ghost use Rattle.cap_talks.specs.inner.table.Ipv6Law.{Ipv6Law};
ghost use Rattle.cap_talks.specs.inner.table.Laws.{KeyLaw, FrameLaw, SumLaw};
ghost use Rattle.cap_talks.specs.inner.table.Worked.{TalkLines, TalkLimit};
ghost use Rattle.cap_talks.specs.table.OtherNetworks.{OtherNetworks};
ghost use Rattle.cap_talks.specs.table.Conversations.{Conversation};
ghost use Rattle.cap_talks.specs.table.TopRows.{IsTop};
ghost use Rattle.cap_class.specs.Taken.{Taken};
ghost use Rattle.cap_talks.specs.declared.table.units.CountedUnit.{CountedUnit};

/// What a conversation is: two units belong to the same one if they have the same protocol and the same two
/// ends, whichever of these is the source. A row's first time is that of its earliest frame, its last time that of its
/// latest; of equal times that of the lowest place counts. All rows together count each unit once.
///
/// And the definitions on a few units, by computation: the lines of an answered datagram, in text and in JSON, of a
/// joined one, and of two at equal times; and the limit.
pub fn talk_laws()
    ensures key { KeyLaw }
    ensures frames { (units : List CountedUnit) → FrameLaw units }
    ensures sums { (units : List CountedUnit) → SumLaw units }
    ensures lines { TalkLines }
    ensures limit { TalkLimit }
{}

/// A law: the packets of a run that are of each network other than IPv4 add up to those of the class `NotIpv4`, which
/// the report prints. It does nothing when it runs.
pub fn other_networks_law()
    ensures { (xs : List Taken) → OtherNetworks xs }
{}

/// A law: in a report that reads IPv6 packets or not each packet has one class, and the seven counts add up to the
/// packets. Conversations of IPv4 and of IPv6 never meet. If no packet carries an IPv6 packet,
/// the report that reads them is the other one with another name of a class, and so is its refusal. It does nothing
/// when it runs.
pub fn ipv6_law()
    ensures { Ipv6Law }
{}

/// A law: the conversations with the most bytes are the front of all of them in an order in which none has fewer bytes
/// than one after it and those of equal bytes stand as in the table. None that is left out has more bytes than one of
/// them. It does nothing when it runs.
pub fn top_rows_law()
    ensures { (most : ℕ) (talks : List Conversation) → IsTop most talks }
{}
