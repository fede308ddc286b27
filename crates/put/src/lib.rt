// Bytes, numbers, fields and whole lines put into a lent slice from a place on. Every public function takes every slice and every
// place, and leaves the place behind what it wrote; where that does not fit, nothing is changed, and the place neither.
#![tactic(auto)]

ghost use Rattle.std.specs.Prelude.{◌≡◌, ℕ, ◌+◌, [], ◌∷◌, length, leb};
ghost use Rattle.lines.specs.Number.{decimal};
ghost use Rattle.lines.specs.Fields.{entry, last, letters};
ghost use Rattle.put.specs.Put.{Fit, Wrote};

use lines::{LF, TAB};

// A lent slice, and the place behind what is written to it. Every function over it keeps the slice that was lent (`same`).
#[derive(Drop)]
pub struct Out<'a> {
    pub bytes: &'a mut [u8],
    pub at: usize,
}

// How many bytes n is written with.
fn width(n: usize) -> usize
    ensures { result ≡ length (decimal n) }
{
    let mut m = n;
    let mut k = 1;
    // Kept: the new form is no plainer: m falls to its tenth each time, no range counts that, and a logarithm has none of 0.
    while 10 <= m {
        m = m / 10;
        k += 1;
    }
    k
}

// How many bytes a line of n numbers takes: its letter, a tab before each number, the numbers and LF.
fn size_of(n: usize, a: u16, b: u16, c: u16) -> usize
    ensures { (t : ℕ) → result ≡ length (letters t n a b c) }
{
    let two = 4 + width(a as usize) + width(b as usize);
    if n == 3 {
        return two + 1 + width(c as usize);
    }
    two
}

impl<'a> Out<'a> {
    // Whether `size` bytes from the place on stand within the slice.
    fn has_room(&self, size: usize) -> bool
        ensures { result ≡ leb (self.now.at + size) (length self.now.bytes.now) }
    {
        self.at <= self.bytes.len() && size <= self.bytes.len() - self.at
    }

    // Writes one byte.
    pub fn write_byte(&mut self, b: u8)
        ensures same { self.new.bytes.ghost_name ≡ self.old.bytes.ghost_name }
        ensures wrote { Wrote self.old.bytes.now self.old.at (b ∷ []) self.new.at self.new.bytes.now }
    {
        if self.at < self.bytes.len() {
            self.bytes[self.at] = b;
            self.at += 1;
        }
    }

    // Writes the bytes.
    pub fn write_bytes(&mut self, bytes: &[u8])
        ensures same { self.new.bytes.ghost_name ≡ self.old.bytes.ghost_name }
        ensures wrote { Wrote self.old.bytes.now self.old.at bytes.now self.new.at self.new.bytes.now }
    {
        if self.has_room(bytes.len()) {
            let end = self.at + bytes.len();
            self.bytes[self.at..end].copy_from_slice(bytes);
            self.at = end;
        }
    }

    // Writes the digits of n, which fit.
    fn put_number(&mut self, n: usize)
        ensures same { self.new.bytes.ghost_name ≡ self.old.bytes.ghost_name }
        ensures fit { Fit self.old.bytes.now self.old.at (decimal n) self.new.at self.new.bytes.now }
    {
        if n < 10 {
            self.write_byte(n as u8 + b'0');
        } else {
            self.put_number(n / 10);
            self.write_byte((n % 10) as u8 + b'0');
        }
    }

    // Writes n.
    pub fn write_number(&mut self, n: usize)
        ensures same { self.new.bytes.ghost_name ≡ self.old.bytes.ghost_name }
        ensures wrote { Wrote self.old.bytes.now self.old.at (decimal n) self.new.at self.new.bytes.now }
    {
        if self.has_room(width(n)) {
            self.put_number(n);
        }
    }

    // Writes a tab and n.
    pub fn write_field(&mut self, n: usize)
        ensures same { self.new.bytes.ghost_name ≡ self.old.bytes.ghost_name }
        ensures wrote { Wrote self.old.bytes.now self.old.at (entry n) self.new.at self.new.bytes.now }
    {
        if self.has_room(1 + width(n)) {
            self.write_byte(TAB);
            self.write_number(n);
        }
    }

    // Writes what stands behind the second of n numbers, which fits.
    fn put_last(&mut self, n: usize, c: u16)
        ensures same { self.new.bytes.ghost_name ≡ self.old.bytes.ghost_name }
        ensures fit { Fit self.old.bytes.now self.old.at (last n c) self.new.at self.new.bytes.now }
    {
        if n == 3 {
            self.write_field(c as usize);
        }
        self.write_byte(LF);
    }

    // Writes the line of the letter t and n numbers, 3 or else 2.
    // Kept: a public promise: n may be every number, and c is not looked at where n is not 3.
    pub fn write_letters(&mut self, t: u8, n: usize, a: u16, b: u16, c: u16)
        ensures same { self.new.bytes.ghost_name ≡ self.old.bytes.ghost_name }
        ensures wrote { Wrote self.old.bytes.now self.old.at (letters t n a b c) self.new.at self.new.bytes.now }
    {
        if self.has_room(size_of(n, a, b, c)) {
            self.write_byte(t);
            self.write_field(a as usize);
            self.write_field(b as usize);
            self.put_last(n, c);
        }
    }
}
