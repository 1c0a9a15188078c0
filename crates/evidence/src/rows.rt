// A row as it lies in an image's bytes, read and written where it lies: nothing is unpacked. Each function takes the whole buffer and a
// place in it: of a set, of a row, or of the first row. These are joints between layers: what they look at has to lie inside the buffer,
// and the window has to fit a mask, which the node has checked before. They take a place and no slice, since what a store promises is the
// whole buffer afterwards (`put_set`, `put_rows`). Whole lists of rows are looked at by list.rt.
ghost use Rattle.std.specs.Prelude.{◌≡◌, ◌+◌, ◌*◌, ◌≤◌, ◌<◌, length};
ghost use Rattle.evidence.specs.Asked.{MayCredit};
ghost use Rattle.evidence.specs.Rows.{set_bytes, row_bytes, place_of_set, set_at, put_set, rows_at, row_with, put_row_bytes, put_rows};
ghost use Rattle.evidence.specs.Rows.{credit, proper_set};
ghost use Rattle.sets.specs.Sets.{mask_bytes, mask_bits, held_by};

use crate::list::Rows;
use fields::field::{put_word, word};
use fields::kind::ECHO;
use sets::mask::Mask;
use sets::ticks::Ticks;

// Bytes of a set: its top and its mask.
const SET: usize = 4 + Mask::BYTES;

// Bytes of a row: serial, echo set, init set.
pub const ROW: usize = 4 + 2 * SET;

// Where in its row a set stands: the echo set behind the serial, the init set behind that.
pub const ECHO_PLACE: usize = 4;

const INIT_PLACE: usize = ECHO_PLACE + SET;

// Where in its row the set of a kind stands.
pub fn set_place(kind: u32) -> usize
    ensures { (result ≡ place_of_set mask_bytes kind) × (result + set_bytes ≤ row_bytes) }
{
    if kind == ECHO { ECHO_PLACE } else { INIT_PLACE }
}

// The set at place i.
pub fn read_set(b: &[u8], i: usize) -> Ticks
    requires { i + set_bytes ≤ length b.now }
    ensures { held_by result ≡ set_at mask_bytes b.now i }
{
    Ticks {
        top: word(b, i),
        mask: Mask::read(b, i + 4),
    }
}

// Writes a set at place i.
fn store_set(b: &mut [u8], i: usize, s: Ticks)
    requires { i + set_bytes ≤ length b.old }
    ensures { b.new ≡ put_set mask_bytes b.old i (held_by s) }
{
    let mask = s.mask;
    put_word(b, i, s.top);
    mask.put(b, i + 4);
}

// Writes a row at place i.
pub fn put_row(b: &mut [u8], i: usize, serial: u32, echo: Ticks, init: Ticks)
    requires { i + row_bytes ≤ length b.old }
    ensures { b.new ≡ put_row_bytes mask_bytes b.old i (row_with serial (held_by echo) (held_by init)) }
{
    put_word(b, i, serial);
    store_set(b, i + ECHO_PLACE, echo);
    store_set(b, i + INIT_PLACE, init);
}

// Credits the frame (kind, j) to the row of a serial.
pub fn credit_row(b: &mut [u8], i: usize, n: usize, w: u32, serial: u32, kind: u32, j: u32)
    requires { MayCredit b.old i n w serial }
    ensures { b.new
        ≡ put_rows mask_bytes b.old i (credit w serial kind j (rows_at mask_bytes n b.old i)) }
{
    if let Some(k) = Rows::new(b, i, n).find(serial) {
        let at = i + ROW * k + set_place(kind);
        let after = read_set(b, at).after(w, kind, j);
        store_set(b, at, after);
    }
}

// Whether a set is proper, with its top at most the last tick.
pub fn is_proper_set(s: Ticks, w: u32, last: u32) -> bool
    requires { w ≤ mask_bits }
    ensures { result ≡ proper_set w last (held_by s) }
{
    if s.top <= last { s.is_proper(w) } else { false }
}
