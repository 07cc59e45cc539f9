// Texts put into a lent buffer, each whole or not at all, so that a buffer never holds a part. Not by
// `write!`: into a slice with too little room that writes a part before it fails, and the library's
// contract says nothing of what a slice holds after it.
//
// The rooms here are arrays for the longest of a text, 20 digits, 21 bytes with a minus, 16 digits in hex:
// a Vec may run out of memory.
#![tactic(auto)]

ghost use Rattle.std.specs.Prelude.{◌≡◌, take};
ghost use Rattle.text.specs.Print.{decimal, hex, shown};
ghost use Rattle.text_write.specs.Appending.{Appended};

// The text that a buffer holds, up to its end; what is put comes after it.
#[derive(Drop)]
pub struct Text<'a> {
    out: &'a mut [u8],
    end: usize,
}

impl<'a> Text<'a> {
    // An empty text.
    pub fn new(out: &'a mut [u8]) -> Text<'a>
        ensures { result ≡ record { out = out.entry; end = 0 } }
    {
        Text::from(out, 0)
    }

    // The text that is at the front of out, up to end.
    pub fn from(out: &'a mut [u8], end: usize) -> Text<'a>
        ensures { result ≡ record { out = out.entry; end = end } }
    {
        Text { out, end }
    }

    pub fn end(&self) -> usize
        ensures { result ≡ self.now.end }
    {
        self.end
    }

    // What has been put, and what was there before it.
    pub fn as_bytes(&self) -> &[u8]
        ensures { result.now ≡ take self.now.end self.now.out.now }
    {
        &self.out[..self.end.min(self.out.len())]
    }

    // Puts w at the end, where all of it has room. Otherwise it leaves the text as it is.
    #[tactic(auto, using(text::proofs::Placing::place_all))]
    pub fn put(&mut self, w: &[u8])
        ensures { Appended self.old self.new w.now }
    {
        match self.end.checked_add(w.len()) {
            Some(end) if end <= self.out.len() => {
                self.out[self.end..end].copy_from_slice(w);
                self.end = end;
            }
            _ => {}
        }
    }

    // Puts a number in decimal, as put does.
    #[tactic(auto, using(text::proofs::Digits::decimal_is))]
    pub fn put_decimal(&mut self, n: u64)
        ensures { Appended self.old self.new (decimal n) }
    {
        let mut text = [0u8; 20];
        let k = io::decimal(n, &mut text);
        self.put(&text[..k]);
    }

    // Puts an instant in decimal, as put does. One below zero is made beside the text, so that its
    // minus goes in only where its digits have room too.
    pub fn put_instant(&mut self, i: i64)
        ensures { Appended self.old self.new (shown i) }
    {
        if i >= 0 {
            self.put_decimal(i as u64);
            return;
        }
        let mut room = [0u8; 21];
        let mut text = Text::new(&mut room);
        text.put(b"-");
        text.put_decimal(i.unsigned_abs());
        self.put(text.as_bytes());
    }

    // Puts sixteen hexadecimal digits, as put does.
    #[tactic(auto, using(text::proofs::Digits::hex_is))]
    pub fn put_hex(&mut self, n: u64)
        ensures { Appended self.old self.new (hex n) }
    {
        let mut digits = [0u8; 16];
        let k = io::hex(n, 16, &mut digits);
        self.put(&digits[..k]);
    }
}
