//! The lines of `capt diff`, in text and in JSON.
ghost use Rattle.cap_print.specs.Facts.{fact_in};
ghost use Rattle.std.specs.Prelude.{◌≡◌, ◌+◌, ◌≤◌, ◌++◌, ◌∷◌, [], ◌||◌, codes, if◌then◌else◌, length, None};
ghost use Rattle.cap_print.specs.Lines.{room_in, text_in};
ghost use Rattle.cap_print.specs.declared.forms.Form.TheVariants.{Json, Text};
ghost use Rattle.cap_commands.specs.DiffText.{before_side, cut_fact, data_place_in, difference_line, from_json};
ghost use Rattle.cap_commands.specs.DiffText.{no_side, row_start, same_line};
ghost use Rattle.cap_commands.specs.DiffText.{words_of};
ghost use Rattle.cap_commands.specs.inner.DiffWords.{quoted_if};

use crate::diff::{CutEnds, Differences};
use cap_print::{Form, Line, TimeForm};

// Puts a word if that is so.
fn prepend_if(line: &mut Line, is_so: bool, word: &[u8])
    requires { length word.now ≤ room_in line.old }
    ensures text { text_in line.new ≡ (if is_so then word.now else []) ++ text_in line.old }
    ensures room { room_in line.old ≤ room_in line.new + length word.now }
{
    if is_so {
        line.prepend_text(word);
    }
}

// Puts a word as a string if that is so, and a comma after it if another follows.
fn prepend_quoted(line: &mut Line, is_so: bool, word: &[u8], is_followed: bool)
    requires { length word.now + 3 ≤ room_in line.old }
    ensures text { text_in line.new ≡ quoted_if is_so word.now is_followed ++ text_in line.old }
    ensures room { room_in line.old ≤ room_in line.new + length word.now + 3 }
{
    if is_so {
        prepend_if(line, is_followed, b",");
        line.prepend_text(b"\"");
        line.prepend_text(word);
        line.prepend_text(b"\"");
    }
}

// Whether one of both is so.
fn either(first: bool, second: bool) -> bool
    ensures { result ≡ (first || second) }
{
    first || second
}

// Puts where the captured bytes differ, if they do.
fn put_place(line: &mut Line, form: Form, place: Option<usize>)
    requires { 31 ≤ room_in line.old }
    ensures text { text_in line.new ≡ data_place_in form place (text_in line.old) }
    ensures room { room_in line.old ≤ room_in line.new + 31 }
{
    if let Some(place) = place {
        line.put_number_as(form, b" at ", b"data_at", place as u64);
    }
}

// `differ packet N WORDS at PLACE`
fn differ_text(times: TimeForm, n: u64, it: Differences, place: Option<usize>) -> Line
    ensures { text_in result ≡ difference_line (Text times) n (words_of it) place }
{
    let mut line = Line::new();
    line.prepend_text(b"\n");
    put_place(&mut line, Form::Text(times), place);
    prepend_if(&mut line, it.bytes, b" data");
    prepend_if(&mut line, it.original, b" original");
    prepend_if(&mut line, it.captured, b" captured");
    prepend_if(&mut line, it.time, b" time");
    prepend_if(&mut line, it.link, b" link");
    line.prepend_field(b"differ packet ", n);
    line
}

// `{"type":"differ","packet":N,"differs":[WORDS],"data_at":PLACE}`
fn differ_json(times: TimeForm, n: u64, it: Differences, place: Option<usize>) -> Line
    ensures { text_in result ≡ difference_line (Json times) n (words_of it) place }
{
    let original = either(it.original, it.bytes);
    let captured = either(it.captured, original);
    let time = either(it.time, captured);
    let mut line = Line::new();
    line.prepend_text(b"}\n");
    put_place(&mut line, Form::Json(times), place);
    line.prepend_text(b"]");
    prepend_quoted(&mut line, it.bytes, b"data", false);
    prepend_quoted(&mut line, it.original, b"original", it.bytes);
    prepend_quoted(&mut line, it.captured, b"captured", original);
    prepend_quoted(&mut line, it.time, b"time", captured);
    prepend_quoted(&mut line, it.link, b"link", time);
    line.prepend_text(b",\"differs\":[");
    line.prepend_field(b"{\"type\":\"differ\",\"packet\":", n);
    line
}

/// The first line of two packets that differ, which have the number n, from 1, and whose captured bytes differ at that
/// place, if they do.
pub(crate) fn differ_line(form: Form, n: u64, it: Differences, place: Option<usize>) -> Line
    ensures { text_in result ≡ difference_line form n (words_of it) place }
{
    match form {
        Form::Text(times) => differ_text(times, n, it, place),
        Form::Json(times) => differ_json(times, n, it, place),
    }
}

/// The first line of a packet of one file that the other lacks, by its number, from 1.
pub(crate) fn end_line(form: Form, n: u64) -> Line
    ensures { text_in result ≡ difference_line form n (codes "end" ∷ []) None }
{
    let mut line = Line::new();
    match form {
        Form::Text(_) => {
            line.prepend_text(b" end\n");
            line.prepend_field(b"differ packet ", n);
        }
        Form::Json(_) => {
            line.prepend_text(b",\"differs\":[\"end\"]}\n");
            line.prepend_field(b"{\"type\":\"differ\",\"packet\":", n);
        }
    }
    line
}

// Puts whether a rest of a file was dropped, which is called so in text and in JSON.
fn put_cut(line: &mut Line, form: Form, label: &[u8], key: &[u8], cut: bool)
    requires label { length label.now ≤ room_in line.old }
    requires key { length key.now + 9 ≤ room_in line.old }
    requires shorter { length label.now ≤ length key.now + 9 }
    ensures text { text_in line.new ≡ fact_in form (cut_fact label.now key.now cut) (text_in line.old) }
    ensures room { room_in line.old ≤ room_in line.new + length key.now + 9 }
{
    match form {
        Form::Text(_) => prepend_if(line, cut, label),
        Form::Json(_) => line.put_flag(form, key, cut),
    }
}

/// The line of captures with the same packets, and whether a rest of each was dropped: `same packets N cut B`.
pub(crate) fn same_line(form: Form, n: u64, cuts: CutEnds) -> Line
    ensures { text_in result ≡ same_line form n cuts }
{
    let mut line = Line::end(form);
    put_cut(&mut line, form, b" cut B", b"cut_b", cuts.second.is_some());
    put_cut(&mut line, form, b" cut A", b"cut_a", cuts.first.is_some());
    line.put_number(form, b"packets", n);
    line.put_kind(form, b"same");
    line
}

/// The line in a form that a file has ended, and whether a rest of it was dropped.
pub(crate) fn no_packet_line(form: Form, cut: bool) -> Line
    ensures { text_in result ≡ no_side form cut }
{
    let mut line = Line::end(form);
    line.put_flag(form, b"cut", cut);
    line.prepend_text(match form {
        Form::Text(_) => b"end",
        Form::Json(_) => b"null",
    });
    line
}

/// The first byte of the row of 16 bytes that a place is in; 0 without a place.
pub(crate) fn row_start(place: Option<usize>) -> usize
    ensures { result ≡ row_start place }
{
    match place {
        None => 0,
        Some(place) => place / 16 * 16,
    }
}

// Puts in JSON from which byte on a packet's bytes are shown, if that isn't the first.
fn put_from(line: &mut Line, from: usize)
    requires { 33 ≤ room_in line.old }
    ensures text { text_in line.new ≡ from_json from (text_in line.old) }
    ensures room { room_in line.old ≤ room_in line.new + 33 }
{
    if from != 0 {
        line.prepend_field(b",\"data_from\":", from as u64);
    }
}

/// What stands before the packet of a file of that sign, whose bytes are shown from that byte on.
pub(crate) fn side_head(form: Form, sign: &[u8], from: usize) -> Line
    requires { length sign.now ≤ 400 }
    ensures { text_in result ≡ before_side form sign.now from }
{
    let mut line = Line::new();
    match form {
        Form::Text(_) => {
            line.prepend_text(b" ");
            line.prepend_text(sign);
        }
        Form::Json(_) => {
            line.prepend_text(b",\"packet\":");
            put_from(&mut line, from);
            line.prepend_text(b"\"");
            line.prepend_text(sign);
            line.prepend_text(b"{\"type\":\"side\",\"side\":\"");
        }
    }
    line
}
