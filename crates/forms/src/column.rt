// Columns of words in lent bytes: 4 apart in a form, a row apart in an image, an entry apart on a sheet of packs. A contract sees a column
// as the list of its numbers.
ghost use Rattle.std.specs.Prelude.{◌≡◌, ◌+◌, ◌*◌, ◌≤◌, ◌<◌, cond, ltb, eqb, length, get_or, set, take, replicate};
ghost use Rattle.fields.specs.Field.{words};
ghost use Rattle.forms.specs.Column.{most_column, count, ascends};
ghost use Rattle.forms.specs.Tally.{Tallied, buckets, bucket_of};

use fields::field::word;
use std::marker::Model;

// Buckets, by which twins are looked for, and what spreads numbers over them, as specs/Tally.antt has them.
const BUCKETS: usize = 256;

const SPREAD: u64 = 2_654_435_769;

// Bits of a word of marks.
const BITS: usize = 64;

// The words at from, from + stride, .., one for each line. They lie inside the bytes.
#[derive(Drop)]
pub struct Column<'a> {
    bytes: &'a [u8],
    from: usize,
    stride: usize,
    lines: usize,
}

impl<'a> Model for Column<'a> {
    ghost use Rattle.std.specs.Prelude.{List, ℕ, ◌+◌, ◌*◌, ◌≤◌, length};
    ghost use Rattle.fields.specs.Field.{words};

    ghost Value = { List ℕ };

    ghost view = { λ c. words c.lines c.stride c.bytes.now c.from };

    ghost invariant = { λ c. (4 ≤ c.stride) × (c.from + c.lines * c.stride ≤ length c.bytes.now) };
}

// What one way through a column tells: how many zeros stand in it, how often one number does, and how many pairs are the same number.
#[derive(Drop)]
pub struct Tally {
    pub zeros: usize,
    pub same: usize,
    pub twins: usize,
}

// Which buckets are marked, a bit for each, since the stack has no room for a byte for each: the header promises what boot and convert
// take. A contract sees the list of these bits.
#[derive(Drop)]
struct Marks {
    words: [u64; BUCKETS / BITS],
}

impl Model for Marks {
    ghost use Rattle.std.specs.Prelude.{List, ℕ};
    ghost use Rattle.forms.specs.Marks.{marks};

    ghost Value = { List ℕ };

    ghost view = { λ m. marks m.words };
}

impl Marks {
    fn none() -> Marks
        ensures { result ≡ replicate buckets 0 }
    {
        Marks {
            words: [0; BUCKETS / BITS],
        }
    }

    fn has(&self, k: usize) -> bool
        requires { k < buckets }
        ensures { result ≡ ltb 0 (get_or self.now k 0) }
    {
        self.words[k / BITS] >> (k % BITS) & 1 != 0
    }

    fn mark(&mut self, k: usize)
        requires { k < buckets }
        ensures { self.new ≡ set self.old k 1 }
    {
        self.words[k / BITS] |= 1 << (k % BITS);
    }
}

// Which bucket a number falls into.
fn bucket(x: u32) -> usize
    ensures { (result ≡ bucket_of x) × (result < buckets) }
{
    (x as u64 * SPREAD / 16_777_216) as usize % BUCKETS
}

// 1 where two numbers are the same, else 0: the library's conversion, under the clause that the counts below want.
fn one_if_same(x: u32, y: u32) -> usize
    ensures { (result ≡ cond (eqb x y) 1 0) × (result ≤ 1) }
{
    usize::from(x == y)
}

impl<'a> Column<'a> {
    // A joint between layers: the caller has checked that the column lies inside the bytes.
    pub fn new(bytes: &'a [u8], from: usize, stride: usize, lines: usize) -> Column<'a>
        requires { (4 ≤ stride) × (from + lines * stride ≤ length bytes.now) }
        ensures { result ≡ words lines stride bytes.now from }
    {
        Column {
            bytes,
            from,
            stride,
            lines,
        }
    }

    pub fn len(&self) -> usize
        ensures { result ≡ length self.now }
    {
        self.lines
    }

    // The number on a line, counted from 0.
    pub fn number(&self, line: usize) -> u32
        requires { line < length self.now }
        ensures { result ≡ get_or self.now line 0 }
    {
        word(self.bytes, self.from + line * self.stride)
    }

    // The lines in front of one.
    fn before(&self, line: usize) -> Column<'a>
        requires { line ≤ length self.now }
        ensures { result ≡ take line self.now }
    {
        Column {
            bytes: self.bytes,
            from: self.from,
            stride: self.stride,
            lines: line,
        }
    }

    // How often x stands in the column.
    pub fn count(&self, x: u32) -> usize
        ensures { (result ≡ count x self.now) × (result ≤ length self.now) }
    {
        let mut found: usize = 0;
        for line in 0..self.len() {
            found += one_if_same(self.number(line), x);
        }
        found
    }

    // Whether x stands in the column. The first place where it does ends the way.
    pub fn contains(&self, x: u32) -> bool
        ensures { result ≡ ltb 0 (count x self.now) }
    {
        (0..self.len()).any(|line| self.number(line) == x)
    }

    // Of the column's numbers the zeros, those that are x, and the pairs that are the same number. It marks the bucket of each number that
    // it meets: one whose bucket is not marked has no twin before it. So lines are compared only where two fall into one bucket.
    pub fn tally(&self, x: u32) -> Tally
        requires { length self.now ≤ most_column }
        ensures { Tallied x self.now result }
    {
        let mut met = Marks::none();
        let mut zeros: usize = 0;
        let mut same: usize = 0;
        let mut twins: usize = 0;
        for line in 0..self.len() {
            let here = self.number(line);
            zeros += one_if_same(here, 0);
            same += one_if_same(here, x);
            let k = bucket(here);
            // the mark is made before the lines are compared: so one instruction tests the bit, and one sets it
            let marked = met.has(k);
            met.mark(k);
            if marked {
                twins += self.before(line).count(here);
            }
        }
        Tally { zeros, same, twins }
    }

    // Whether each number is above the one before it.
    pub fn ascends(&self) -> bool
        ensures { result ≡ ascends self.now }
    {
        (1..self.len()).all(|line| self.number(line - 1) < self.number(line))
    }
}
