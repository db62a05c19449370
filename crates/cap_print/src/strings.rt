//! Strings of JSON (RFC 8259, 7).
ghost use Rattle.std.specs.Prelude.{◌≡◌, ◌+◌, ◌*◌, ◌≤◌, ◌++◌, flat_map, length};
ghost use Rattle.cap_print.specs.Lines.{room_in, text_in};
ghost use Rattle.cap_print.specs.Strings.{escaped_byte};

use crate::lines::Line;

// Puts a byte of a text as it stands in a string.
fn prepend_byte(line: &mut Line, byte: u8)
    requires { 6 ≤ room_in line.old }
    ensures text { text_in line.new ≡ escaped_byte byte ++ text_in line.old }
    ensures room { room_in line.old ≤ room_in line.new + 6 }
{
    let bytes = [byte];
    if byte == b'"' || byte == b'\\' {
        line.prepend_text(bytes.as_slice());
        line.prepend_text(b"\\");
    } else if byte < 32 {
        line.prepend_hex(b"\\u00", bytes.as_slice());
    } else {
        line.prepend_text(bytes.as_slice());
    }
}

/// Puts a text as it stands between the quotation marks of a JSON string: `"` and `\` after a `\`, control characters
/// as `\u001b`, all else as it is. A byte takes at most six.
pub fn prepend_escaped(line: &mut Line, text: &[u8])
    requires { 6 * length text.now ≤ room_in line.old }
    ensures text { text_in line.new ≡ flat_map escaped_byte text.now ++ text_in line.old }
    ensures room { room_in line.old ≤ room_in line.new + 6 * length text.now }
{
    let mut left = text.len();
    while left > 0 {
        left -= 1;
        prepend_byte(line, text[left]);
    }
}
