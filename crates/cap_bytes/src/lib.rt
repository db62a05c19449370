//! Numbers in bytes, faults, devices and windows: what every reader and writer of captures stands on.
#![tactic(auto)]

mod buffers;
mod devices;
mod faults;
mod formats;
mod limits;
mod memory;
mod numbers;
mod stops;
mod streams;
mod windows;

pub use crate::devices::{Broken, Device, Sink, Source, put_all};
pub use crate::faults::{Fault, Refusal, Rule, Tail};
pub use crate::formats::Format;
pub use crate::limits::{FILE_LIMIT, PACKET_LIMIT};
pub use crate::memory::{Pieces, Room};
pub use crate::numbers::{Order, put_u16, put_u32, put_u64, u16_at, u32_at, u64_at};
pub use crate::stops::{CutRest, Stop};
pub use crate::streams::Tracked;
pub use crate::windows::Window;
