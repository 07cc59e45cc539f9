// Span forms, read from the front of a slice. Each reader answers what it read and the bytes after it,
// or None.
#![tactic(auto)]

ghost use Rattle.std.specs.Prelude.{◌≡◌};
ghost use Rattle.text.specs.Meaning.{got_of};
ghost use Rattle.sheet_forms.specs.Forms.{line_form, span_form};

// A span: live from `from` on, up to but not at `to`, with the bits of its side.
#[derive(Clone, Copy)]
pub struct Span {
    pub from: i64,
    pub to: i64,
    pub side: u64,
}

// A span form.
#[tactic(auto, unfolding(crate::specs::Forms::span_form))]
pub fn read_span(s: &[u8]) -> Option<(Span, &[u8])>
    ensures { span_form s.now ≡ got_of result }
{
    let s = text_read::read_word(s, b"(span (from ")?;
    let (from, s) = text_read::read_instant(s)?;
    let s = text_read::read_word(s, b") (to ")?;
    let (to, s) = text_read::read_instant(s)?;
    let s = text_read::read_word(s, b") (side ")?;
    let (side, s) = text_read::read_hex(s)?;
    let s = text_read::read_word(s, b"))")?;
    Some((Span { from, to, side }, s))
}

// A line: a span form that a newline closes.
#[tactic(auto, unfolding(crate::specs::Forms::line_form))]
pub fn read_line(s: &[u8]) -> Option<(Span, &[u8])>
    ensures { line_form s.now ≡ got_of result }
{
    let (span, s) = read_span(s)?;
    let s = text_read::read_word(s, b"\n")?;
    Some((span, s))
}
