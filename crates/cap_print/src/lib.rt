//! Printed lines, of at most 640 bytes each, written from their end. They take no memory.
#![tactic(auto)]

mod addresses;
mod dates;
mod decimals;
mod digits;
mod fields;
mod forms;
mod laws;
mod lines;
mod numbers;
mod strings;
mod times;

pub use crate::addresses::address_law;
pub use crate::forms::{Form, TimeForm};
pub use crate::laws::time_laws;
pub use crate::lines::{LINE, Line};
pub use crate::numbers::Number;
pub use crate::strings::prepend_escaped;
