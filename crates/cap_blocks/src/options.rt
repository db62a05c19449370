//! The options of a block.
ghost use Rattle.std.specs.Prelude.{◌≡◌, ◌%◌, ◌<◌, length, drop};
ghost use Rattle.cap_blocks.specs.OptionList.{padded};

use cap_bytes::{Order, Rule, u16_at};

/// The options of a list (draft-ietf-opsawg-pcapng, 3.5), in order: each its code and its value, without
/// the padding to 4 bytes. The list ends with code 0, whatever its length and whatever follows, or with
/// the bytes. If a value runs past the end of the bytes, a last item is `Rule::OptionEnd`.
#[derive(Drop)]
pub struct Options<'a> {
    order: Order,
    rest: &'a [u8],
}

impl<'a> Options<'a> {
    ghost use Rattle.cap_blocks.specs.OptionList.{options_of};
    ghost use Rattle.cap_blocks.specs.inner.Options.{options_to_come};

    /// The options that these bytes spell in an order.
    pub fn new(order: Order, bytes: &'a [u8]) -> Options<'a>
        requires padded { length bytes.now % 4 ≡ 0 }
        ensures items { options_to_come result ≡ options_of order bytes.now }
    {
        Options { order, rest: bytes }
    }
}

impl<'a> Iterator for Options<'a> {
    type Item = Result<(u16, &'a [u8]), Rule>;

    ghost use Rattle.std.specs.Iterator.{YieldsFirstBy, item_count};
    ghost use Rattle.cap_blocks.specs.inner.Options.{options_to_come, option_item};

    ghost next_gives = { YieldsFirstBy option_item options_to_come };

    ghost remaining = { item_count options_to_come };

    fn next(&mut self) -> Option<Result<(u16, &'a [u8]), Rule>> {
        if self.rest.len() < 4 {
            return None;
        }
        let code = u16_at(self.order, self.rest, 0);
        if code == 0 {
            self.rest = &[];
            return None;
        }
        let length = usize::from(u16_at(self.order, self.rest, 2));
        let (_, behind) = self.rest.split_at(4);
        if behind.len() < length {
            self.rest = &[];
            return Some(Err(Rule::OptionEnd));
        }
        let (value, _) = behind.split_at(length);
        self.rest = behind_padding(behind, length);
        Some(Ok((code, value)))
    }
}

// What comes after a value of that length and its padding to a multiple of 4.
fn behind_padding(bytes: &[u8], length: usize) -> &[u8]
    requires { length < 65536 }
    ensures { result.now ≡ drop (padded length) bytes.now }
{
    let end = 4 * ((length + 3) / 4);
    if bytes.len() < end {
        &[]
    } else {
        bytes.split_at(end).1
    }
}
