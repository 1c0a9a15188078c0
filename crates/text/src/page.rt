// An output that the caller lends, with how much of it is written: what programs print is put here piece by piece. A piece goes behind
// those before it, and what stands behind them all stays as it was.
ghost use Rattle.std.specs.Prelude.{◌≡◌, ◌≤◌, [], ◌∷◌, length};
ghost use Rattle.text.specs.Decimal.{most_digits, decimal};
ghost use Rattle.text.specs.Page.{Fits, Wrote};

use crate::decimal::{MOST_DIGITS, digits};
use crate::put::put_bytes;

#[derive(Drop)]
pub struct Page<'a> {
    out: &'a mut [u8],
    len: usize,
}

impl<'a> Page<'a> {
    // So many bytes are written.
    pub fn at(out: &'a mut [u8], len: usize) -> Page<'a>
        requires { len ≤ length out.old }
        ensures same_reference { result.out.ghost_name ≡ out.entry.ghost_name }
        ensures bytes { result.out.now ≡ out.old }
        ensures len { result.len ≡ len }
    {
        Page { out, len }
    }

    // Nothing is written yet.
    pub fn new(out: &'a mut [u8]) -> Page<'a>
        ensures same_reference { result.out.ghost_name ≡ out.entry.ghost_name }
        ensures bytes { result.out.now ≡ out.old }
        ensures len { result.len ≡ 0 }
    {
        Page { out, len: 0 }
    }

    // How many bytes are written.
    pub fn len(&self) -> usize
        ensures { result ≡ self.now.len }
    {
        self.len
    }

    // Puts a byte.
    pub fn push(&mut self, byte: u8)
        requires { Fits self.old 1 }
        ensures { Wrote self.old (byte ∷ []) 1 self.new }
    {
        self.put(&[byte]);
    }

    // Puts a text.
    pub fn put(&mut self, text: &[u8])
        requires { Fits self.old (length text.now) }
        ensures { Wrote self.old text.now (length text.now) self.new }
    {
        put_bytes(self.out, self.len, text);
        self.len += text.len();
    }

    // Puts a number in decimal digits.
    pub fn put_decimal(&mut self, n: u32)
        requires { Fits self.old most_digits }
        ensures { Wrote self.old (decimal n) most_digits self.new }
    {
        let mut text = [0u8; MOST_DIGITS];
        let k = digits(n, &mut text);
        self.put(&text[k..]);
    }
}
