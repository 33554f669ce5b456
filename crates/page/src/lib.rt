// Text written into lent bytes at a cursor: bytes, words, decimal numbers. What has no room left is not written.
#![tactic(auto, using(crate::proofs::Digits::figures))]

ghost use Rattle.std.specs.Prelude.{◌≡◌, ◌∷◌, [], ◌++◌, length, take};
ghost use Rattle.page.specs.Page.{page, Wrote};
ghost use Rattle.page.specs.Digits.{digits, padded, serial_text};

use kinds::Serial;

// Lent bytes, and where the next byte of a text goes: a buffer with a write cursor.
#[derive(Drop)]
pub struct Page<'a> {
    bytes: &'a mut [u8],
    at: usize,
}

// How many decimal digits `n` has: its width as text.
pub fn width(n: u32) -> usize
    ensures { result ≡ length (digits n) }
{
    if n < 10 { 1 } else { width(n / 10) + 1 }
}

impl<'a> Page<'a> {
    // A page of lent bytes, nothing of it written: a cursor at 0.
    pub fn new(bytes: &'a mut [u8]) -> Page<'a>
        ensures lent { result.bytes.ghost_name ≡ bytes.entry.ghost_name }
        ensures is { page result ≡ record { bytes = bytes.old; at = 0 } }
    {
        Page { bytes, at: 0 }
    }

    // Writes one byte, if there is room: a bounded store.
    pub fn byte(&mut self, b: u8)
        ensures { Wrote self.old self.new (b ∷ []) }
    {
        if self.at < self.bytes.len() {
            self.bytes[self.at] = b;
            self.at += 1;
        }
    }

    // Writes `text`, as far as there is room: a bounded copy.
    pub fn text(&mut self, text: &[u8])
        ensures { Wrote self.old self.new text.now }
    {
        for b in text {
            self.byte(*b);
        }
    }

    // Writes `n` in decimal: a number as text.
    pub fn number(&mut self, n: u32)
        ensures { Wrote self.old self.new (digits n) }
    {
        if 10 <= n {
            self.number(n / 10);
        }
        self.byte(b'0' + (n % 10) as u8);
    }

    // Writes `n` in decimal, right-aligned to `most` digits: a padded number.
    pub fn padded(&mut self, n: u32, most: usize)
        ensures { Wrote self.old self.new (padded most n) }
    {
        for _ in 0..most.saturating_sub(width(n)) {
            self.byte(b' ');
        }
        self.number(n);
    }

    // Writes `tag` and behind it `n` in decimal: a labelled number.
    pub fn tagged(&mut self, tag: &[u8], n: u32)
        ensures { Wrote self.old self.new (tag.now ++ digits n) }
    {
        self.text(tag);
        self.number(n);
    }

    // Writes a slip's serial behind its number, and nothing where it is 0: a generation.
    pub fn serial(&mut self, k: Serial)
        ensures { Wrote self.old self.new (serial_text k.0) }
    {
        if k.0 != 0 {
            self.tagged(b".", u32::from(k.0));
        }
    }

    // What is written before the cursor: the text of a page.
    pub fn written(&self) -> &[u8]
        ensures { result.now ≡ take self.now.at self.now.bytes.now }
    {
        &self.bytes[..self.at.min(self.bytes.len())]
    }
}
