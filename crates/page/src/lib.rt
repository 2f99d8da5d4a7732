// A page: words and numbers are put on it, one behind the other.
#![tactic(auto)]

ghost use Rattle.std.specs.Prelude.{◌≡◌, ◌-◌, ◌≤◌, length};

use lettering::line;

// The most digits that a number has.
pub const DIGITS: usize = 20;

// A page: bytes that are lent to it, and how many of them are used.
#[derive(Drop)]
pub struct Page<'a> {
    bytes: &'a mut [u8],
    used: usize,
    ghost within: { used ≤ length bytes.now },
}

impl<'a> Page<'a> {
    ghost use Rattle.lettering.specs.Line.{decimal};
    ghost use Rattle.page.specs.Page.{Room, PutOn, right_aligned, filled, room};

    // An empty page.
    pub fn new(bytes: &'a mut [u8]) -> Page<'a>
        ensures same_reference { result.bytes.ghost_name ≡ bytes.entry.ghost_name }
        ensures bytes { result.bytes.now ≡ bytes.old }
        ensures used { result.used ≡ 0 }
    {
        Page { bytes, used: 0 }
    }

    // How many bytes are used.
    pub fn used(&self) -> usize
        ensures { result ≡ self.now.used }
    {
        self.used
    }

    // How many bytes are left.
    pub fn left(&self) -> usize
        ensures { result ≡ length self.now.bytes.now - self.now.used }
    {
        self.bytes.len() - self.used
    }

    // Puts words on the page.
    pub fn put(&mut self, words: &[u8])
        requires { Room (length words.now) self.old }
        ensures { PutOn (length words.now) self.old words.now self.new }
    {
        let end = self.used + words.len();
        self.bytes[self.used..end].copy_from_slice(words);
        self.used = end;
    }

    // Puts a number on the page, in decimal.
    pub fn put_number(&mut self, n: usize)
        requires { Room 20 self.old }
        ensures { PutOn 20 self.old (decimal n) self.new }
    {
        self.put(line::digits(n).text());
    }

    // Puts a number on the page so that it ends 12 places further on, or where it ends if it has more digits.
    pub fn put_right(&mut self, n: usize)
        requires { Room 20 self.old }
        ensures { PutOn 20 self.old (right_aligned n) self.new }
    {
        let number = line::digits(n);
        let digits = number.text();
        let blanks = [b' '; 12];
        self.put(&blanks[digits.len().min(12)..]);
        self.put(digits);
    }

    // Puts a form on the page, with the numbers for its @s, and 0 where they are not enough.
    pub fn put_form(&mut self, form: &[u8], numbers: &[usize])
        requires { Room (room form.now) self.old }
        ensures { PutOn (room form.now) self.old (filled form.now numbers.now) self.new }
    {
        let mut numbers = numbers.iter();
        for sign in form {
            if *sign == b'@' {
                self.put_number(numbers.next().copied().unwrap_or(0));
            } else {
                self.put(&[*sign]);
            }
        }
    }
}
