// Text as bytes: decimal numbers, words and the lines made of them, written behind one another on a page. All commands print by these.

#![tactic(auto)]

ghost use Rattle.std.specs.Prelude.{◌+◌, ◌≤◌, length, take};
ghost use Rattle.text.specs.Decimal.{decimal};
ghost use Rattle.text.specs.Lines.{field, line, refusal_line};
ghost use Rattle.text.specs.Contract.{BytesOf, DecimalWidth, Put, Room, Written, HandOver};

use itoa::Buffer;

// A command's refusal: the length of its line in bytes.
#[derive(Clone, Copy)]
pub struct Refused {
    pub length: usize,
}

// How many bytes there are to print, of an answer or of the line of a refusal.
pub fn bytes_of(printed: Result<usize, Refused>) -> usize
    ensures { BytesOf printed result }
{
    match printed {
        Ok(n) => n,
        Err(refused) => refused.length,
    }
}

// How many digits a number takes.
#[tactic(auto, using(crate::proofs::DecimalLaws::decimal_printed))]
pub fn decimal_width(x: u64) -> usize
    ensures { DecimalWidth x result }
{
    Buffer::new().format(x).len()
}

// A lent buffer, and the place in it at which the next bytes are written.
#[derive(Drop)]
pub struct Page<'a> {
    pub bytes: &'a mut [u8],
    pub at: usize,
}

impl Page<'_> {
    // Writes a word.
    pub fn put_word(&mut self, word: &[u8])
        requires { Room word.now self.old }
        ensures { Written word.now self.old self.new }
    {
        let end = self.at + word.len();
        self.bytes[self.at..end].copy_from_slice(word);
        self.at = end;
    }

    // Writes a number's digits.
    #[tactic(auto, using(crate::proofs::DecimalLaws::decimal_printed))]
    pub fn put_decimal(&mut self, x: u64)
        requires { Room (decimal x) self.old }
        ensures { Written (decimal x) self.old self.new }
    {
        self.put_word(Buffer::new().format(x).as_bytes());
    }

    // Writes a word and behind it a number.
    pub fn put_field(&mut self, word: &[u8], x: u64)
        requires { Room (field word.now x) self.old }
        ensures { Written (field word.now x) self.old self.new }
    {
        self.put_word(word);
        self.put_decimal(x);
    }

    // The same at the end of a line.
    pub fn put_line(&mut self, word: &[u8], x: u64)
        requires { Room (line word.now x) self.old }
        ensures { Written (line word.now x) self.old self.new }
    {
        self.put_field(word, x);
        self.put_word(b"\n");
    }

    // Writes the line of a refusal.
    pub fn put_refusal(&mut self, number: u32, detail: usize)
        requires { Room (refusal_line number detail) self.old }
        ensures { Written (refusal_line number detail) self.old self.new }
    {
        self.put_field(b"refused ", u64::from(number));
        self.put_line(b" at ", detail as u64);
    }

    // Copies what the page has over the front of a lent buffer that has room for it; one that is too short stays as it was.
    pub fn hand_over(&self, text: &mut [u8])
        requires { self.now.at ≤ length self.now.bytes.now }
        ensures { HandOver (take self.now.at self.now.bytes.now) text.old text.new }
    {
        hand_over(self.bytes, self.at, text);
    }
}

// Copies the first n bytes of a page over the front of a lent buffer that has room for them; one that is too short stays as it was.
pub fn hand_over(page: &[u8], n: usize, text: &mut [u8])
    requires { n ≤ length page.now }
    ensures { HandOver (take n page.now) text.old text.new }
{
    if n <= text.len() {
        text[..n].copy_from_slice(&page[..n]);
    }
}
