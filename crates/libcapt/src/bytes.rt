//! What bytes come from and go to, numbers in them, and their faults.

pub use cap_bytes::{
    Broken, Device, FILE_LIMIT, Fault, Order, PACKET_LIMIT, Pieces, Refusal, Room, Rule, Sink,
    Source, Tail, Tracked, Window, put_all, put_u16, put_u32, put_u64, u16_at, u32_at, u64_at,
};
