//! How an interface counts time: how many units there are in a second, and from which second.
ghost use Rattle.std.specs.Prelude.{◌≡◌, ◌<◌, ◌≤◌, ◌^◌, ◌↔◌, IsTrue, IsSome, IfSome};
ghost use Rattle.cap_time.specs.Code.{is_allowed, units_of_code};

/// How many units of an interface's times there are in a second: a power of ten up to 10^19, or
/// a power of two up to 2^63. It is written as a code of one byte, the value of the option
/// `if_tsresol` (draft-ietf-opsawg-pcapng, 4.2): with the top bit 0 the low seven bits are the
/// exponent of ten, with the top bit 1 that of two.
#[derive(Clone, Copy, Debug, PartialEq, Eq)]
pub struct Resolution {
    code: u8,
    ghost allowed: { IsTrue (is_allowed code) },
}

impl Resolution {
    ghost use Rattle.cap_time.specs.Resolution.{code_of, units_of};

    /// The resolution of a code, or `None` if the exponent is above 19 (of ten) or above 63
    /// (of two).
    pub fn from_code(code: u8) -> Option<Resolution>
        ensures allowed { IsSome result ↔ IsTrue (is_allowed code) }
        ensures code { IfSome result (λ r. code_of r ≡ code) }
        ensures units { IfSome result (λ r. units_of r ≡ units_of_code code) }
    {
        let most = if code < 128 { 19 } else { 63 };
        if code % 128 <= most {
            Some(Resolution { code })
        } else {
            None
        }
    }

    /// The code, as `from_code` takes it.
    pub fn code(self) -> u8
        ensures value { result ≡ code_of self }
        ensures allowed { IsTrue (is_allowed result) }
    {
        self.code
    }

    /// The units in a second: `10^e` or `2^f`, at least 1 and at most 10^19.
    pub fn units(self) -> u64
        ensures value { result ≡ units_of self }
        ensures positive { 0 < result }
        ensures most { result ≤ 10 ^ 19 }
    {
        units_of_code(u32::from(self.code))
    }
}

// The powers of ten from 1 to 10^19. It is a static, since a constant would be copied for each that is looked up.
static POWERS_OF_TEN: [u64; 20] = [
    1,
    10,
    100,
    1_000,
    10_000,
    100_000,
    1_000_000,
    10_000_000,
    100_000_000,
    1_000_000_000,
    10_000_000_000,
    100_000_000_000,
    1_000_000_000_000,
    10_000_000_000_000,
    100_000_000_000_000,
    1_000_000_000_000_000,
    10_000_000_000_000_000,
    100_000_000_000_000_000,
    1_000_000_000_000_000_000,
    10_000_000_000_000_000_000,
];

/// The units in a second by the code of a resolution.
pub(crate) fn units_of_code(code: u32) -> u64
    requires { IsTrue (is_allowed code) }
    ensures value { result ≡ units_of_code code }
    ensures positive { 0 < result }
    ensures most { result ≤ 10 ^ 19 }
{
    let exponent = code % 128;
    if code < 128 {
        POWERS_OF_TEN[exponent as usize]
    } else {
        1 << exponent
    }
}

/// What a packet's interface says of it: the kind of its frames and how its time is counted.
#[derive(Clone, Copy, Debug, PartialEq, Eq)]
pub struct Interface {
    /// The second from which its times count (`if_tsoffset`).
    pub offset: i64,
    /// The most bytes that are captured of a packet, 0 for no limit.
    pub snaplen: u32,
    /// The link type, a number of the LINKTYPE registry.
    pub link: u16,
    /// The units of the interface's times (`if_tsresol`).
    pub resolution: Resolution,
}
