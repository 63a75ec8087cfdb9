// A text stored in a lent buffer, part after part; what would lie past the buffer's end is dropped.
#![tactic(auto)]

ghost use Rattle.std.specs.Prelude.{◌≡◌, [], ◌∷◌, ◌++◌, ◌+◌, ◌≤◌, length};
ghost use Rattle.text.specs.Write.{decimal_text};
ghost use Rattle.put.specs.Page.{Written};
ghost use Rattle.put.specs.Put.{Put};
ghost use Rattle.put.specs.Texts.{Puts};

// A text in a lent buffer: the first `len` bytes of it.
#[derive(Drop)]
pub struct Text<'a> {
    out: &'a mut [u8],
    len: usize,
}

impl<'a> Text<'a> {
    // The text that has no byte yet.
    pub fn new(out: &'a mut [u8]) -> Text<'a>
        ensures same { result.out.ghost_name ≡ out.entry.ghost_name }
        ensures bytes { result.out.now ≡ out.old }
        ensures empty { result.len ≡ 0 }
    {
        Text { out, len: 0 }
    }

    pub fn len(&self) -> usize
        ensures { result ≡ self.now.len }
    {
        self.len
    }

    // One byte.
    pub fn byte(&mut self, b: u8)
        ensures { Puts 1 self.old (b ∷ []) self.new }
    {
        if self.len < self.out.len() {
            self.out[self.len] = b;
            self.len += 1;
        }
    }

    // The bytes of s.
    pub fn bytes(&mut self, s: &[u8])
        ensures { Puts (length s.now) self.old s.now self.new }
    {
        for b in s {
            self.byte(*b);
        }
    }

    // The decimal digits of n: those of all but the last, then the last.
    pub fn number(&mut self, n: u64)
        ensures { Puts 20 self.old (decimal_text n) self.new }
    {
        if 10 <= n {
            self.number(n / 10);
        }
        self.byte(b'0' + (n % 10) as u8);
    }

    // A number and the byte after it, a tab or LF.
    pub fn field(&mut self, n: u64, end: u8)
        ensures { Puts 21 self.old (decimal_text n ++ end ∷ []) self.new }
    {
        self.number(n);
        self.byte(end);
    }
}

// A page whose text is these bytes, as far as the page goes, and how many of them it has.
pub fn put_text(out: &mut [u8; 65536], s: &[u8]) -> usize
    ensures stored { Put (length s.now) out.old 0 s.now out.new result }
    ensures page { length s.now ≤ 65536 → Written s.now out.old out.new result }
{
    let mut text = Text::new(out);
    text.bytes(s);
    text.len()
}
