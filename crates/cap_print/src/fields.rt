//! The facts of a line, in a form. A line is written from its end to its beginning, so
//!
//!     let mut line = Line::end(form);
//!     line.put_number(form, b"truncated", truncated);
//!     line.put_number(form, b"packets", packets);
//!     line.put_kind(form, b"total");
//!
//! makes `total packets 3 truncated 0`, or `{"type":"total","packets":3,"truncated":0}`.
ghost use Rattle.std.specs.Prelude.{◌≡◌, ◌+◌, ◌*◌, ◌≤◌, ◌++◌, [], codes, length, option_map, unwrap_or};
ghost use Rattle.cap_time.specs.Stamp.{printed_of};
ghost use Rattle.cap_print.specs.Facts.{begin_in, bytes_text, close_in, coded, end_in, fact_in, flagged, hex, moment};
ghost use Rattle.cap_print.specs.Facts.{moment_in};
ghost use Rattle.cap_print.specs.Facts.{name_in, named, number, open_in, word, word_in};
ghost use Rattle.cap_print.specs.Lines.{room_in, text_in};
ghost use Rattle.cap_print.specs.inner.Parts.{name_room, quote_in};

use crate::forms::{Form, TimeForm};
use crate::lines::Line;
use crate::numbers::Number;
use cap_time::Stamp;

impl Line {
    /// A line that has only its end.
    #[inline(always)]
    pub fn end(form: Form) -> Line
        ensures text { text_in result ≡ end_in form }
        ensures room { 638 ≤ room_in result }
    {
        let mut line = Line::new();
        line.clear_to_end(form);
        line
    }

    /// Removes all but the line's end.
    #[inline(always)]
    pub fn clear_to_end(&mut self, form: Form)
        ensures text { text_in self.new ≡ end_in form }
        ensures room { 638 ≤ room_in self.new }
    {
        self.clear();
        match form {
            Form::Text(_) => self.prepend_text(b"\n"),
            Form::Json(_) => self.prepend_text(b"}\n"),
        }
    }

    /// Puts the beginning of the line, after all its facts.
    #[inline(always)]
    pub fn put_kind(&mut self, form: Form, kind: &[u8])
        requires { length kind.now + 10 ≤ room_in self.old }
        ensures { text_in self.new ≡ begin_in form kind.now (text_in self.old) }
    {
        match form {
            Form::Text(_) => self.prepend_text(kind),
            Form::Json(_) => self.prepend_between(b"{\"type\":\"", kind, b"\""),
        }
    }

    /// Puts the beginning of a group, after its facts. In JSON it replaces the comma before the first of them.
    #[inline(always)]
    pub fn put_group(&mut self, form: Form, key: &[u8])
        requires { length key.now + 5 ≤ room_in self.old }
        ensures text { text_in self.new ≡ open_in form key.now (text_in self.old) }
        ensures room { room_in self.old ≤ room_in self.new + length key.now + 5 }
    {
        match form {
            Form::Text(_) => {}
            Form::Json(_) => {
                self.drop_first();
                self.prepend_between(b",\"", key, b"\":{");
            }
        }
    }

    /// Puts the end of a group, before its facts.
    #[inline(always)]
    pub fn put_group_end(&mut self, form: Form)
        requires { 1 ≤ room_in self.old }
        ensures text { text_in self.new ≡ close_in form (text_in self.old) }
        ensures room { room_in self.old ≤ room_in self.new + 1 }
    {
        match form {
            Form::Text(_) => {}
            Form::Json(_) => self.prepend_text(b"}"),
        }
    }

    /// Puts what encloses a word, after it and before it, if the word is put piece by piece.
    #[inline(always)]
    pub fn put_quote(&mut self, form: Form)
        requires { 1 ≤ room_in self.old }
        ensures text { text_in self.new ≡ quote_in form (text_in self.old) }
        ensures room { room_in self.old ≤ room_in self.new + 1 }
    {
        match form {
            Form::Text(_) => {}
            Form::Json(_) => self.prepend_text(b"\""),
        }
    }

    /// Puts what is before a value: in text the label, in JSON the name.
    #[inline(always)]
    pub fn put_name(&mut self, form: Form, label: &[u8], key: &[u8])
        requires { name_room label.now key.now ≤ room_in self.old }
        ensures text { text_in self.new ≡ name_in form label.now key.now (text_in self.old) }
        ensures room { room_in self.old ≤ room_in self.new + name_room label.now key.now }
    {
        match form {
            Form::Text(_) => self.prepend_text(label),
            Form::Json(_) => self.prepend_between(b",\"", key, b"\":"),
        }
    }

    // The same where the label is the name with a space on each side.
    #[inline(always)]
    fn put_key(&mut self, form: Form, key: &[u8])
        requires { length key.now + 4 ≤ room_in self.old }
        ensures text { text_in self.new
            ≡ name_in form (codes " " ++ key.now ++ codes " ") key.now (text_in self.old) }
        ensures room { room_in self.old ≤ room_in self.new + length key.now + 4 }
    {
        match form {
            Form::Text(_) => self.prepend_between(b" ", key, b" "),
            Form::Json(_) => self.prepend_between(b",\"", key, b"\":"),
        }
    }

    /// Puts a number, labelled with its name.
    #[inline(always)]
    pub fn put_number<N: Number>(&mut self, form: Form, key: &[u8], n: N)
        requires { length key.now + 4 + N.DIGITS ≤ room_in self.old }
        ensures text { text_in self.new ≡ fact_in form (named key.now (number (N.value n))) (text_in self.old) }
        ensures room { room_in self.old ≤ room_in self.new + length key.now + 4 + N.DIGITS }
    {
        n.prepend_to(self);
        self.put_key(form, key);
    }

    /// Puts a number with a label of its own.
    #[inline(always)]
    pub fn put_number_as<N: Number>(&mut self, form: Form, label: &[u8], key: &[u8], n: N)
        requires { name_room label.now key.now + N.DIGITS ≤ room_in self.old }
        ensures text { text_in self.new ≡ fact_in form
            (record { label = label.now; key = key.now; value = number (N.value n) }) (text_in self.old) }
        ensures room { room_in self.old ≤ room_in self.new + name_room label.now key.now + N.DIGITS }
    {
        n.prepend_to(self);
        self.put_name(form, label, key);
    }

    /// Puts a number that is a name in text, with a label of its own.
    pub fn put_coded_as<N: Number>(
        &mut self,
        form: Form,
        label: &[u8],
        key: &[u8],
        text: &[u8],
        n: N,
    )
        requires { name_room label.now key.now + length text.now + N.DIGITS ≤ room_in self.old }
        ensures text { text_in self.new ≡ fact_in form
            (record { label = label.now; key = key.now; value = coded text.now (N.value n) }) (text_in self.old) }
        ensures room { room_in self.old
            ≤ room_in self.new + name_room label.now key.now + length text.now + N.DIGITS }
    {
        match form {
            Form::Text(_) => self.prepend_text(text),
            Form::Json(_) => n.prepend_to(self),
        }
        self.put_name(form, label, key);
    }

    // Puts a word without what is before it.
    fn prepend_known(&mut self, form: Form, known: Option<&str>)
        requires { length (unwrap_or (option_map (λ w. w.now) known) []) + 4 ≤ room_in self.old }
        ensures text { text_in self.new ≡ word_in form (option_map (λ w. w.now) known.entry) ++ text_in self.old }
        ensures room { room_in self.old
            ≤ room_in self.new + length (unwrap_or (option_map (λ w. w.now) known.entry) []) + 4 }
    {
        match known {
            None => match form {
                Form::Text(_) => self.prepend_text(b"-"),
                Form::Json(_) => self.prepend_text(b"null"),
            },
            Some(word) => match form {
                Form::Text(_) => self.prepend_text(word.as_bytes()),
                Form::Json(_) => self.prepend_between(b"\"", word.as_bytes(), b"\""),
            },
        }
    }

    /// Puts a word, if it is known, with a label of its own. No byte of it is escaped.
    pub fn put_word_as(&mut self, form: Form, label: &[u8], key: &[u8], known: Option<&str>)
        requires { name_room label.now key.now + length (unwrap_or (option_map (λ w. w.now) known) []) + 4
            ≤ room_in self.old }
        ensures text { text_in self.new ≡ fact_in form (record {
          label = label.now;
          key = key.now;
          value = word (option_map (λ w. w.now) known.entry);
        }) (text_in self.old) }
        ensures room { room_in self.old ≤ room_in self.new + name_room label.now key.now
            + length (unwrap_or (option_map (λ w. w.now) known.entry) []) + 4 }
    {
        self.prepend_known(form, known);
        self.put_name(form, label, key);
    }

    /// Puts a word, if it is known, labelled with its name. No byte of it is escaped.
    #[inline(always)]
    pub fn put_word(&mut self, form: Form, key: &[u8], known: Option<&str>)
        requires { length key.now + length (unwrap_or (option_map (λ w. w.now) known) []) + 8 ≤ room_in self.old }
        ensures text { text_in self.new
            ≡ fact_in form (named key.now (word (option_map (λ w. w.now) known.entry))) (text_in self.old) }
        ensures room { room_in self.old
            ≤ room_in self.new + length key.now + length (unwrap_or (option_map (λ w. w.now) known.entry) []) + 8 }
    {
        self.prepend_known(form, known);
        self.put_key(form, key);
    }

    // Puts a time in any form. The usual one is put where it is asked for, so that it needs no call.
    #[inline(never)]
    fn prepend_moment(&mut self, form: Form, time: Option<Stamp>)
        requires { 106 ≤ room_in self.old }
        ensures text { text_in self.new ≡ moment_in form (option_map printed_of time) ++ text_in self.old }
        ensures room { room_in self.old ≤ room_in self.new + 106 }
    {
        match form {
            Form::Text(times) => self.prepend_time_in(times, time),
            Form::Json(times) => self.prepend_time_in_json(times, time),
        }
    }

    /// Puts a time, if there is one, labelled with its name.
    #[inline(always)]
    pub fn put_time(&mut self, form: Form, key: &[u8], time: Option<Stamp>)
        requires { length key.now + 110 ≤ room_in self.old }
        ensures text { text_in self.new
            ≡ fact_in form (named key.now (moment (option_map printed_of time))) (text_in self.old) }
        ensures room { room_in self.old ≤ room_in self.new + length key.now + 110 }
    {
        match form {
            Form::Text(TimeForm::Exact) => self.prepend_time(b"", time),
            Form::Json(TimeForm::Exact) => self.prepend_time_array(b"", time),
            _ => self.prepend_moment(form, time),
        }
        self.put_key(form, key);
    }

    // Puts bytes in lower case hex, or `-` if there are none.
    #[inline(always)]
    fn prepend_bytes(&mut self, bytes: &[u8])
        requires { 2 * length bytes.now + 1 ≤ room_in self.old }
        ensures text { text_in self.new ≡ bytes_text bytes.now ++ text_in self.old }
        ensures room { room_in self.old ≤ room_in self.new + 2 * length bytes.now + 1 }
    {
        if bytes.is_empty() {
            self.prepend_text(b"-");
        } else {
            self.prepend_hex(b"", bytes);
        }
    }

    /// Puts bytes in lower case hex, labelled with their name.
    #[inline(always)]
    pub fn put_hex(&mut self, form: Form, key: &[u8], bytes: &[u8])
        requires { length key.now + 2 * length bytes.now + 6 ≤ room_in self.old }
        ensures text { text_in self.new ≡ fact_in form (named key.now (hex bytes.now)) (text_in self.old) }
        ensures room { room_in self.old ≤ room_in self.new + length key.now + 2 * length bytes.now + 6 }
    {
        match form {
            Form::Text(_) => self.prepend_bytes(bytes),
            Form::Json(_) => self.prepend_hex_string(b"", bytes),
        }
        self.put_key(form, key);
    }

    /// Puts whether something is so: in text its name, or nothing, and in JSON `true` or `false`.
    pub fn put_flag(&mut self, form: Form, key: &[u8], is_so: bool)
        requires { length key.now + 9 ≤ room_in self.old }
        ensures text { text_in self.new ≡ fact_in form (flagged key.now is_so) (text_in self.old) }
        ensures room { room_in self.old ≤ room_in self.new + length key.now + 9 }
    {
        match (form, is_so) {
            (Form::Text(_), true) => self.prepend_between(b" ", key, b""),
            (Form::Text(_), false) => {}
            (Form::Json(_), true) => self.prepend_between(b",\"", key, b"\":true"),
            (Form::Json(_), false) => self.prepend_between(b",\"", key, b"\":false"),
        }
    }
}
