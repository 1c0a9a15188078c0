// A mask by value: one number of 128 bits. Of the code that firmware links only this file knows how wide it is: a set counts bits, and
// rows and search have a mask read, written and shown to them by what stands here. Each function asks that a place lies inside the mask
// or the buffer: a joint between layers.
ghost use Rattle.std.specs.Prelude.{◌≡◌, ◌+◌, ◌*◌, ◌/◌, ◌≤◌, ◌<◌, ◌%◌, ◌^◌, ltb, eqb, length};
ghost use Rattle.fields.specs.Field.{field, put_field};
ghost use Rattle.sets.specs.Ticks.{bit, marked};
ghost use Rattle.sets.specs.Sets.{word_bits, mask_bytes, mask_bits, mask_by};

use fields::field::{long, put_long};

#[derive(Clone, Copy)]
pub struct Mask {
    pub bits: u128,
}

// The sizes of a mask, as specs/Sets.antt has them.
impl Mask {
    // bytes of a word, and its bits
    const WORD_BYTES: usize = 8;

    pub const WORD: u32 = 8 * (Mask::WORD_BYTES as u32);

    // bytes of a mask, and its bits
    pub const BYTES: usize = 2 * Mask::WORD_BYTES;

    pub const BITS: u32 = 8 * (Mask::BYTES as u32);
}

// The mask whose bits are those of one word.
impl From<u64> for Mask {
    ghost from_gives = { λ word m. mask_by m ≡ word };

    fn from(word: u64) -> Mask {
        Mask { bits: word as u128 }
    }
}

impl Mask {
    // ---- read and written

    // The mask in the bytes at i.
    pub fn read(b: &[u8], i: usize) -> Mask
        requires { i + mask_bytes ≤ length b.now }
        ensures { mask_by result ≡ field mask_bytes b.now i }
    {
        let high = long(b, i);
        let low = long(b, i + Mask::WORD_BYTES);
        Mask {
            bits: ((high as u128) << Mask::WORD) + low as u128,
        }
    }

    // Writes the mask over the bytes at i.
    pub fn put(self, b: &mut [u8], i: usize)
        requires { i + mask_bytes ≤ length b.old }
        ensures { b.new ≡ put_field mask_bytes b.old i (mask_by self) }
    {
        put_long(b, i, self.word_at(Mask::WORD));
        put_long(b, i + Mask::WORD_BYTES, self.word_at(0));
    }

    // ---- asked

    // Whether no bit is set.
    pub fn is_empty(self) -> bool
        ensures { result ≡ eqb (mask_by self) 0 }
    {
        self.bits == 0
    }

    // Whether bit 0 is set. x ^ (x - 1) has the lowest bit that is set in x, and those below it. Asked so, the low word is read at once:
    // for bits % 2 the compiler reads the last byte by itself, and then the other seven one by one.
    pub fn is_odd(self) -> bool
        ensures { result ≡ eqb (mask_by self % 2) 1 }
    {
        let low = self.word_at(0);
        0 < low && (low ^ (low - 1)) == 1
    }

    // Whether bit i is set.
    pub fn bit(self, i: u32) -> bool
        requires { i < mask_bits }
        ensures { result ≡ eqb (bit (mask_by self) i) 1 }
    {
        (self.bits >> i) % 2 == 1
    }

    // Whether bit d is set in the mask in the bytes at i: only the byte that has it is read.
    pub fn bit_in(b: &[u8], i: usize, d: u32) -> bool
        requires { (i + mask_bytes ≤ length b.now) × (d < mask_bits) }
        ensures { result ≡ eqb (bit (field mask_bytes b.now i) d) 1 }
    {
        (b[i + (Mask::BYTES - 1 - (d / 8) as usize)] >> (d % 8)) % 2 == 1
    }

    // The word that begins at bit i.
    pub fn word_at(self, i: u32) -> u64
        requires { i < mask_bits }
        ensures { result ≡ mask_by self / 2 ^ i % 2 ^ word_bits }
    {
        ((self.bits >> i) % (1 << Mask::WORD)) as u64
    }

    // Whether no bit from bit k on is set. Mostly k is as many bits as there are, and no word has to be read. Else it is told by
    // words, for speed: to shift both at once by a variable takes two shifts and a choice.
    pub fn is_below(self, k: u32) -> bool
        requires { k ≤ mask_bits }
        ensures { result ≡ ltb (mask_by self) (2 ^ k) }
    {
        if Mask::BITS <= k {
            true
        } else if Mask::WORD <= k {
            self.word_at(Mask::WORD) >> (k - Mask::WORD) == 0
        } else {
            self.word_at(Mask::WORD) == 0 && self.word_at(0) >> k == 0
        }
    }

    // ---- changed

    // Every bit d places higher; what goes past the highest is lost.
    pub fn up(self, d: u32) -> Mask
        requires { (0 < d) × (d < mask_bits) }
        ensures { mask_by result ≡ mask_by self * 2 ^ d % 2 ^ mask_bits }
    {
        Mask {
            bits: self.bits << d,
        }
    }

    // The low w bits.
    pub fn cut(self, w: u32) -> Mask
        requires { w ≤ mask_bits }
        ensures { mask_by result ≡ mask_by self % 2 ^ w }
    {
        let bits = if w < Mask::BITS {
            self.bits % (1 << w)
        } else {
            self.bits
        };
        Mask { bits }
    }

    // The mask with bit d set.
    pub fn marked(self, d: u32) -> Mask
        requires { d < mask_bits }
        ensures { mask_by result ≡ marked (mask_by self) d }
    {
        Mask {
            bits: self.bits | (1 << d),
        }
    }
}
