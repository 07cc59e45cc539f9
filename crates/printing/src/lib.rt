// Replies as they are printed, each a line of its own: docs/REQUESTS.md lists them.
#![tactic(auto)]

ghost use Rattle.std.specs.Prelude.{◌≡◌};
ghost use Rattle.text.specs.Bytes.{bytes};
ghost use Rattle.text_write.specs.Appending.{Appended, Puts};
ghost use Rattle.printing.specs.Lines.{head, line};

use replies::Reply;
use step::Step;
use text_write::Text;

pub fn put_bad(text: &mut Text)
    ensures { Appended text.old text.new (bytes "bad\n") }
{
    text.put(b"bad\n");
}

// Puts the answer to the line s, with its newline: its reply, beside which stands the list xs, if the
// line is a request. s and xs are no struct: rows alone want both, and each clause here would be longer.
pub fn put(text: &mut Text, r: Option<Reply>, s: &[u8], xs: &[f64])
    ensures { Puts text.old text.new (line r s.now xs.now) }
{
    if let Some(r) = r {
        text.put(head(r));
        printing_values::put_values(text, r, s, xs);
    } else {
        text.put(b"bad");
    }
    text.put(b"\n");
}

// The word that a reply begins with.
fn head(r: Reply) -> &'static [u8]
    ensures { result.now ≡ head r }
{
    match r {
        Reply::Refused(_) => b"refused",
        Reply::Stepped(Step::Inadmissible) => b"inadmissible",
        _ => b"ok",
    }
}
