//! The interfaces of a pcapng file that is written.
ghost use Rattle.std.specs.Prelude.{◌≡◌, ◌≤◌, ◌<◌, ◌++◌, ◌∷◌, [], length, map, nat_le, IsOkUnless, OnErr, OnOk};
ghost use Rattle.std.specs.List.{position_or_len};
ghost use Rattle.cap_bytes.specs.declared.faults.Fault.{Fault};
ghost use Rattle.cap_write.specs.Numbering.{description_of, is_description};

use cap_bytes::Fault;
use cap_time::Interface;
use std::alloc::Global;

/// How many interfaces a written file describes at most.
const INTERFACE_LIMIT: usize = 1024;

/// The interfaces that a file describes, by their numbers there.
#[derive(Drop)]
pub struct Interfaces {
    list: Vec<Interface>,
    ghost few: { length list.items ≤ 1024 },
}

// Whether two interfaces are described alike.
fn is_same(a: &Interface, b: &Interface) -> bool
    ensures { result ≡ is_description (description_of a.now) (description_of b.now) }
{
    a.offset == b.offset
        && (a.snaplen == b.snaplen
            && (a.link == b.link && a.resolution.code() == b.resolution.code()))
}

impl Interfaces {
    /// None so far.
    pub fn new(alloc: Global) -> Interfaces
        ensures { result.list.items ≡ [] }
    {
        Interfaces {
            list: Vec::new(alloc),
        }
    }

    /// How many they are.
    pub fn count(&self) -> usize
        ensures count { result ≡ length self.now.list.items }
        ensures few { result ≤ 1024 }
    {
        self.list.len()
    }

    /// Whether no more may be described.
    pub fn is_full(&self) -> bool
        ensures { result ≡ nat_le 1024 (length self.now.list.items) }
    {
        self.list.len() >= INTERFACE_LIMIT
    }

    /// The number of an interface: how many stand before the first that is the same, or how many they are if none is.
    pub fn number_of(&self, interface: &Interface) -> usize
        ensures number { result ≡ position_or_len (is_description (description_of interface.now))
            (map description_of self.now.list.items) }
        ensures most { result ≤ length self.now.list.items }
    {
        let list = self.list.as_slice();
        let mut number = 0;
        while number < list.len() && !is_same(interface, &list[number]) {
            number += 1;
        }
        number
    }

    /// Adds one.
    pub fn add(&mut self, interface: Interface) -> Result<(), Fault>
        requires { length self.old.list.items < 1024 }
        ensures added { OnOk result (self.new.list.items ≡ self.old.list.items ++ interface ∷ []) }
        ensures kept { OnErr result (self.new.list.items ≡ self.old.list.items) }
        ensures fault { IsOkUnless result Fault.Memory }
    {
        match self.list.push(interface) {
            Ok(()) => Ok(()),
            Err(_) => Err(Fault::Memory),
        }
    }
}
