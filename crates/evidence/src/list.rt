// The rows of an image as a list, read where they lie in lent bytes. Whoever asks them something speaks of a list of rows, and of no
// bytes: that all of them lie inside the buffer is settled where the list is made.
ghost use Rattle.std.specs.Prelude.{ℕ, ◌≡◌, ◌+◌, ◌*◌, ◌≤◌, ◌<◌, eqb, get_or, length};
ghost use Rattle.evidence.specs.Holders.{holders, place_of, place_told};
ghost use Rattle.evidence.specs.Rows.{no_row, row_bytes, row_at, rows_at, set_of, proper_rows};
ghost use Rattle.evidence.specs.Serials.{serials_in};
ghost use Rattle.sets.specs.Sets.{mask_bytes, mask_bits, tick_count, held_by};
ghost use Rattle.sets.specs.Ticks.{holds};
ghost use Rattle.fields.specs.Field.{Bytes};

use crate::rows::{ROW, is_proper_set, read_set, set_place};
use fields::field::word;
use fields::kind::{ECHO, INIT};
use forms::column::Column;
use sets::mask::Mask;
use sets::ticks::Ticks;
use std::marker::Model;

// What a top in these bytes is below. (A function of its own: that each byte fits is known of a parameter, and not of a field.)
fn bound_in(b: &[u8]) -> u64
    ensures value { result ≡ tick_count }
    ensures bytes { Bytes b.now }
{
    Ticks::COUNT
}

// So many rows, from a place of the bytes on.
#[derive(Drop)]
pub struct Rows<'a> {
    bytes: &'a [u8],
    from: usize,
    count: usize,
}

impl<'a> Model for Rows<'a> {
    ghost use Rattle.std.specs.Prelude.{◌+◌, ◌*◌, ◌≤◌, List, length};
    ghost use Rattle.sets.specs.Sets.{mask_bytes};
    ghost use Rattle.evidence.specs.Rows.{Row, row_bytes, rows_at};

    ghost Value = { List Row };

    ghost view = { λ r. rows_at mask_bytes r.count r.bytes.now r.from };

    ghost invariant = { λ r. r.from + r.count * row_bytes ≤ length r.bytes.now };
}

impl<'a> Rows<'a> {
    pub fn new(bytes: &'a [u8], from: usize, count: usize) -> Rows<'a>
        requires { from + count * row_bytes ≤ length bytes.now }
        ensures { result ≡ rows_at mask_bytes count bytes.now from }
    {
        Rows { bytes, from, count }
    }

    // From where on no row holds a tick: a top is a number of 4 bytes.
    pub fn tick_bound(&self) -> u64
        ensures value { result ≡ tick_count }
        ensures bound { (w kind t : ℕ) → tick_count ≤ t → holders w kind t self.now ≡ 0 }
    {
        bound_in(self.bytes)
    }

    // How many rows there are.
    pub fn len(&self) -> usize
        ensures { result ≡ length self.now }
    {
        self.count
    }

    // The serials, a column of words a row apart.
    pub fn serials(&self) -> Column<'a>
        ensures { result ≡ serials_in self.now }
    {
        Column::new(self.bytes, self.from, ROW, self.count)
    }

    // The bytes of row k.
    fn row(&self, k: usize) -> &[u8]
        requires { k < length self.now }
        ensures row { row_at mask_bytes result.now 0 ≡ get_or self.now k no_row }
        ensures size { length result.now ≡ row_bytes }
    {
        let at = self.from + k * ROW;
        &self.bytes[at..at + ROW]
    }

    // Its serial,
    pub fn serial(&self, k: usize) -> u32
        requires { k < length self.now }
        ensures { result ≡ (get_or self.now k no_row).serial }
    {
        word(self.row(k), 0)
    }

    // its set of a kind,
    pub fn set(&self, k: usize, kind: u32) -> Ticks
        requires { k < length self.now }
        ensures { held_by result ≡ set_of kind (get_or self.now k no_row) }
    {
        read_set(self.row(k), set_place(kind))
    }

    // and the top of that set alone.
    pub fn top(&self, k: usize, kind: u32) -> u32
        requires { k < length self.now }
        ensures { result ≡ (set_of kind (get_or self.now k no_row)).top }
    {
        word(self.row(k), set_place(kind))
    }

    // Whether row k holds (kind, t). The mask is looked at only where the tick lies in its window.
    pub fn holds(&self, k: usize, kind: u32, w: u32, t: u32) -> bool
        requires { (k < length self.now) × (w ≤ mask_bits) }
        ensures { result ≡ eqb (holds w (set_of kind (get_or self.now k no_row)) t) 1 }
    {
        let row = self.row(k);
        let place = set_place(kind);
        let top = word(row, place);
        if top < t {
            return false;
        }
        let d = top - t;
        d < w && Mask::bit_in(row, place + 4, d)
    }

    // The place of the first row that has this serial.
    pub fn find(&self, serial: u32) -> Option<usize>
        ensures { place_told result ≡ place_of serial self.now }
    {
        for k in 0..self.len() {
            if self.serial(k) == serial {
                return Some(k);
            }
        }
        None
    }

    // Whether all rows are as a sound image may hold them.
    pub fn are_proper(&self, w: u32, last: u32) -> bool
        requires { w ≤ mask_bits }
        ensures { result ≡ proper_rows w last self.now }
    {
        for k in 0..self.len() {
            if !is_proper_set(self.set(k, ECHO), w, last) {
                return false;
            }
            if !is_proper_set(self.set(k, INIT), w, last) {
                return false;
            }
        }
        true
    }
}
