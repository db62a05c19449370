//! The packet that a caller's numbers tell.
ghost use Rattle.std.specs.Prelude.{◌≡◌, ◌<◌, ◌≤◌, ◌^◌, ◌+◌, ◌*◌, ◌+ℤ◌, ◌*ℤ◌, pos, ℕ, IfSome, IsTrue, None, Option};
ghost use Rattle.std.specs.Prelude.{◌↔◌};
ghost use Rattle.cap_source.specs.declared.packets.Meta.{Meta};
ghost use Rattle.cap_time.specs.Resolution.{code_of, units_of};
ghost use Rattle.cap_time.specs.declared.resolutions.Interface.{Interface};
ghost use Rattle.cap_time.specs.declared.resolutions.Resolution.{Resolution};
ghost use Rattle.capt_c.specs.Told.{HasElapsed, HasUnits, IsInUnits, TellsInterface, TellsPacket, TellsUnits};

use crate::packets::CPacket;
use cap_bytes::{Format, PACKET_LIMIT};
use cap_source::Meta;
use cap_time::{Interface, Resolution};

// The resolution of that many units in a second, by the first code that has them.
fn find_resolution(units: u64) -> Option<Resolution>
    ensures some { IfSome result (λ r. (units_of r ≡ units) × (code_of r ≡ 128 → ⊥)) }
    ensures none { result ≡ None
        → (r : Resolution) → code_of r < 256 → (code_of r ≡ 128 → ⊥) → units_of r ≡ units → ⊥ }
{
    let mut code = 0;
    while code < 192 {
        if has_units(code, units) {
            return Resolution::from_code(code);
        }
        code += 1;
    }
    None
}

// Whether a code is that of so many units in a second. Of the two that have one unit it is the power of ten.
fn has_units(code: u8, units: u64) -> bool
    ensures { IsTrue result ↔ HasUnits units code }
{
    match Resolution::from_code(code) {
        Some(resolution) => code != 128 && resolution.units() == units,
        None => false,
    }
}

// The same. Most interfaces count as those of a pcap file.
fn resolution_of(units: u64) -> Option<Resolution>
    ensures some { IfSome result (λ r. (units_of r ≡ units) × (code_of r ≡ 128 → ⊥)) }
    ensures none { result ≡ None
        → (r : Resolution) → code_of r < 256 → (code_of r ≡ 128 → ⊥) → units_of r ≡ units → ⊥ }
{
    match units {
        1_000_000 => Resolution::from_code(6),
        1_000_000_000 => Resolution::from_code(9),
        _ => find_resolution(units),
    }
}

// The interface that a packet's numbers tell.
fn interface_of(packet: &CPacket) -> Option<Interface>
    ensures some { IfSome result (λ i. TellsInterface packet.now i) }
    ensures none { result ≡ None → (i : Interface) → TellsInterface packet.now i → ⊥ }
{
    let Ok(link) = u16::try_from(packet.link) else {
        return None;
    };
    match resolution_of(packet.resolution) {
        Some(resolution) => Some(Interface {
            offset: packet.time_offset,
            snaplen: packet.snaplen,
            link,
            resolution,
        }),
        None => None,
    }
}

// The whole seconds from the second on from which an interface counts to a time, if they fit in 64 bits.
fn whole(packet: &CPacket) -> Option<u64>
    ensures some { IfSome result (λ whole. HasElapsed packet.now whole) }
    ensures none { result ≡ None → (whole : ℕ) → HasElapsed packet.now whole → 2 ^ 64 ≤ whole }
{
    let seconds = i128::from(packet.seconds) + i128::from(packet.carry) * 0x1_0000_0000_0000_0000;
    match u64::try_from(seconds - i128::from(packet.time_offset)) {
        Ok(whole) => Some(whole),
        Err(_) => None,
    }
}

// The units from the second on from which an interface counts to a time in the same units, if they fit in 64 bits.
fn counted(packet: &CPacket) -> Option<u64>
    requires { 0 < packet.now.denominator }
    ensures some { IfSome result (λ n. (whole : ℕ) × (HasElapsed packet.now whole)
        × (n ≡ whole * packet.now.denominator + packet.now.numerator)) }
    ensures fits { IfSome result (λ n. n < 2 ^ 64) }
    ensures none { result ≡ None → (whole : ℕ) → HasElapsed packet.now whole
        → 2 ^ 64 ≤ whole * packet.now.denominator + packet.now.numerator }
{
    let Some(whole) = whole(packet) else {
        return None;
    };
    let units = u128::from(whole) * u128::from(packet.denominator) + u128::from(packet.numerator);
    match u64::try_from(units) {
        Ok(units) => Some(units),
        Err(_) => None,
    }
}

// Whether a packet's numbers tell a time in units of its interface.
fn is_in_units(packet: &CPacket) -> bool
    ensures { IsTrue result ↔ IsInUnits packet.now }
{
    packet.denominator == packet.resolution && packet.numerator < packet.denominator
}

// The time that a packet's numbers tell in units of its interface, if they tell a time, or none.
fn units_of(packet: &CPacket, interface: &Interface) -> Option<Option<u64>>
    requires { TellsInterface packet.now interface.now }
    ensures some { IfSome result (λ units. TellsUnits packet.now interface.now units) }
    ensures none { result ≡ None → (i : Interface) (units : Option ℕ) → TellsInterface packet.now i
        → TellsUnits packet.now i units → ⊥ }
{
    if packet.denominator == 0 {
        return Some(None);
    }
    if !is_in_units(packet) {
        return None;
    }
    match counted(packet) {
        Some(units) => Some(Some(units)),
        None => None,
    }
}

/// The packet that a caller's numbers tell, with that many captured bytes: the one for which a reader would show these
/// numbers. `None` if there is no such packet.
pub fn told_packet(packet: &CPacket, captured: usize) -> Option<Meta>
    ensures some { IfSome result (λ meta. TellsPacket packet.now captured meta) }
    ensures none { result ≡ None → (meta : Meta) → TellsPacket packet.now captured meta → ⊥ }
{
    if captured > PACKET_LIMIT as usize {
        return None;
    }
    let Some(interface) = interface_of(packet) else {
        return None;
    };
    match units_of(packet, &interface) {
        Some(units) => Some(Meta {
            offset: packet.offset,
            skipped: 0,
            instance: packet.instance,
            interface,
            units,
            captured: captured as u32,
            original: packet.original,
            file: 1,
            format: Format::Pcap,
        }),
        None => None,
    }
}
