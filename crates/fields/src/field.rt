// Big-endian fields in lent bytes. These are joints between layers: each asks that its field lies inside the buffer, which
// every caller has checked before, so that a field costs its bytes and nothing else. They take a place and no slice, since what a store
// promises is the whole buffer afterwards (`put_field`). The three widths keep names and number types of their own: with one public
// function over the width each of more than eighty calls would need a cast, and a proof that the number fits.
ghost use Rattle.std.specs.Prelude.{◌≡◌, ◌+◌, ◌*◌, ◌^◌, ◌≤◌, ◌<◌, length};
ghost use Rattle.fields.specs.Field.{field, put_field};

// The W bytes at i as a number.
fn read<const W: usize>(b: &[u8], i: usize) -> u64
    requires { (i + W ≤ length b.now) × (W ≤ 8) }
    ensures value { result ≡ field W b.now i }
    ensures bound { result < 256 ^ W }
{
    let mut v: u64 = 0;
    for k in 0..W {
        v = v * 256 + b[i + k] as u64;
    }
    v
}

// Writes the low W bytes of v at i.
fn put<const W: usize>(b: &mut [u8], i: usize, v: u64)
    requires { (i + W ≤ length b.old) × (W ≤ 8) }
    ensures { b.new ≡ put_field W b.old i v }
{
    for k in 0..W {
        b[i + k] = ((v >> (8 * (W - 1 - k))) % 256) as u8;
    }
}

// The two bytes at i as a number.
pub fn half(b: &[u8], i: usize) -> u32
    requires { i + 2 ≤ length b.now }
    ensures { result ≡ field 2 b.now i }
{
    read::<2>(b, i) as u32
}

// The four bytes at i as a number.
pub fn word(b: &[u8], i: usize) -> u32
    requires { i + 4 ≤ length b.now }
    ensures { result ≡ field 4 b.now i }
{
    read::<4>(b, i) as u32
}

// The eight bytes at i as a number.
pub fn long(b: &[u8], i: usize) -> u64
    requires { i + 8 ≤ length b.now }
    ensures { result ≡ field 8 b.now i }
{
    read::<8>(b, i)
}

// Writes the low two bytes of v at i.
pub fn put_half(b: &mut [u8], i: usize, v: u32)
    requires { i + 2 ≤ length b.old }
    ensures { b.new ≡ put_field 2 b.old i v }
{
    put::<2>(b, i, v as u64);
}

// Writes v over the four bytes at i.
pub fn put_word(b: &mut [u8], i: usize, v: u32)
    requires { i + 4 ≤ length b.old }
    ensures { b.new ≡ put_field 4 b.old i v }
{
    put::<4>(b, i, v as u64);
}

// Writes v over the eight bytes at i.
pub fn put_long(b: &mut [u8], i: usize, v: u64)
    requires { i + 8 ≤ length b.old }
    ensures { b.new ≡ put_field 8 b.old i v }
{
    put::<8>(b, i, v);
}
