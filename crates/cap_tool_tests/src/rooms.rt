//! Writers for the tests.
use cap_bytes::Room;
use std::alloc::Global;
use std::process::Abort;

/// An empty writer with room for that many bytes.
pub(crate) fn room_of(rt: &impl Abort, alloc: Global, count: usize) -> Room {
    Room::new(Vec::with_capacity(alloc, count).expect(rt, "room"))
}
