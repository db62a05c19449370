//! The numbers of interfaces in a written file, by first use.
ghost use Rattle.std.specs.Prelude.{◌≡◌, ◌≤◌, [], length, IsSome};
ghost use Rattle.cap_write.specs.Numbering.{count_of, description_of, own, refusal_at, shared};
ghost use Rattle.cap_write.specs.inner.Interfaces.{HasUnits, Numbers, NumbersKey, is_beyond, is_leading, origins_of};

use cap_bytes::{Fault, Refusal, Rule};
use cap_source::Meta;
use cap_time::Interface;
use indexmap::IndexSet;
use std::alloc::Global;
use std::hash::Hash;

/// The description of an interface.
#[derive(Clone, Copy, PartialEq, Eq, Hash)]
pub(crate) struct Description {
    /// The second from which its times count (`if_tsoffset`).
    pub offset: i64,
    /// The most bytes that are captured of a packet, 0 for no limit.
    pub snaplen: u32,
    /// The link type.
    pub link: u16,
    /// The code of its times' resolution (`if_tsresol`).
    pub resolution: u8,
}

/// The interfaces that were used, in the order of their first use.
#[derive(Drop)]
pub(crate) enum Origins {
    /// Each file's own, by their origins: the number of the file, and how many interface blocks of the file stand
    /// before the interface's own.
    Own(IndexSet<(u32, u64)>),
    /// Equal interfaces are one.
    Shared(IndexSet<Description>),
}

impl Origins {
    /// None so far, and each file has its own.
    pub(crate) fn own(alloc: Global) -> Origins
        ensures { origins_of result ≡ own [] }
    {
        Origins::Own(IndexSet::new(alloc))
    }

    /// None so far, and equal ones will be one.
    pub(crate) fn shared(alloc: Global) -> Origins
        ensures { origins_of result ≡ shared [] }
    {
        Origins::Shared(IndexSet::new(alloc))
    }

    /// How many they are.
    #[inline(always)]
    pub(crate) fn count(&self) -> usize
        ensures { result ≡ count_of (origins_of self.now) }
    {
        match self {
            Origins::Own(origins) => origins.len(),
            Origins::Shared(descriptions) => descriptions.len(),
        }
    }
}

/// What is known of a file before its first packet.
#[derive(Clone, Copy)]
pub(crate) struct FileStart {
    /// The number of the file.
    pub file: u32,
    /// Its first interface; `None` if none stands before the first packet.
    pub first: Option<Interface>,
}

// How many interfaces a written file describes at most.
const WRITTEN_INTERFACE_LIMIT: usize = 1024;

// The refusal of a packet that isn't written.
pub(crate) fn refused(meta: &Meta, rule: Rule) -> Fault
    ensures { result ≡ Fault.Refused (refusal_at meta.now rule) }
{
    Fault::Refused(Refusal {
        file: meta.file,
        offset: meta.offset,
        rule,
    })
}

/// A packet's time in the units of its interface, or the refusal of a packet that has none.
pub(crate) fn units_of(meta: &Meta) -> Result<u64, Fault>
    ensures answer { HasUnits meta.now result }
{
    match meta.units {
        Some(units) => Ok(units),
        None => Err(refused(meta, Rule::NoTime)),
    }
}

// The description of an interface.
fn description_of(interface: &Interface) -> Description
    ensures { result ≡ description_of interface.now }
{
    Description {
        offset: interface.offset,
        snaplen: interface.snaplen,
        link: interface.link,
        resolution: interface.resolution.code(),
    }
}

// Whether a packet's interface would be the 1,025th: `key` tells it from the others.
fn is_full<K: Eq + Hash>(used: &IndexSet<K>, key: &K) -> bool
    ensures { result ≡ is_beyond K.eq used.now.keys key.now }
{
    used.len() >= WRITTEN_INTERFACE_LIMIT && !used.contains(key)
}

// Whether a packet's interface is the first that was used. Of a file with one interface all are, and this costs less
// than to look it up.
#[inline(always)]
fn is_first<K: Eq + Hash>(used: &IndexSet<K>, key: &K) -> bool
    ensures { result ≡ is_leading K.eq used.now.keys key.now }
{
    match used.first() {
        Some(first) => *key == *first,
        None => false,
    }
}

// The number of a packet's interface, which `key` tells from the others: it is the next one if it wasn't used before.
#[inline(always)]
fn number_in<K: Eq + Hash + Copy>(used: &mut IndexSet<K>, key: K, meta: &Meta) -> Result<u32, Fault>
    requires limit { length used.old.keys ≤ 1024 }
    ensures answer { NumbersKey K.eq key meta.now used.old.keys result used.new.keys }
    ensures limit { length used.new.keys ≤ 1024 }
{
    if is_first(used, &key) {
        return Ok(0);
    }
    if is_full(used, &key) {
        return Err(refused(meta, Rule::InterfaceLimit));
    }
    match used.insert_full(key) {
        Ok((number, _)) => Ok(number as u32),
        Err(_) => Err(Fault::Memory),
    }
}

/// The number of a packet's interface, which is the next one if it wasn't used before. `Refused`
/// comes if it would be the 1,025th, `Memory` if a growth was refused.
#[inline(always)]
pub(crate) fn number_of(origins: &mut Origins, meta: &Meta) -> Result<u32, Fault>
    requires time { IsSome meta.now.units }
    requires limit { count_of (origins_of origins.old) ≤ 1024 }
    ensures answer { Numbers meta.now (origins_of origins.old) result (origins_of origins.new) }
    ensures limit { count_of (origins_of origins.new) ≤ 1024 }
{
    match origins {
        Origins::Own(used) => number_in(used, (meta.file, meta.instance), meta),
        Origins::Shared(used) => number_in(used, description_of(&meta.interface), meta),
    }
}
