// The rows of an old image as a list, read where they lie and written as rows of the layout in service. Whoever asks them something speaks
// of a list of rows, and of no bytes: that all of them lie inside the buffer is settled where the list is made.
ghost use Rattle.std.specs.Prelude.{◌≡◌, ◌+◌, ◌≤◌, ◌<◌, ◌^◌, drop, get_or, length, take};
ghost use Rattle.sets.specs.Sets.{mask_bytes, mask_by, held_by};
ghost use Rattle.evidence.specs.Rows.{set_size, row_size, set_of, place_of_set, set_at, row_at, put_rows};
ghost use Rattle.evidence.specs.Serials.{serials_in};
ghost use Rattle.node.specs.Layout.{layout, old_layout, header_size, image_size};
ghost use Rattle.converter.specs.Old.{old_rows};
ghost use Rattle.evidence.specs.Rows.{no_row};

use evidence::rows::{ECHO_PLACE, ROW, put_row};
use fields::field::{long, word};
use fields::kind::{ECHO, INIT};
use forms::column::Column;
use node::layout::{HEADER, OLD_MASKS};
use sets::mask::Mask;
use sets::ticks::Ticks;
use std::marker::Model;

// Bytes of an old set and of an old row.
const OLD_SET: usize = 4 + OLD_MASKS as usize;

pub(crate) const OLD_ROW: usize = 4 + 2 * OLD_SET;

// Where in its row an old set stands: the echo set behind the serial, the init set behind that.
const OLD_INIT_PLACE: usize = ECHO_PLACE + OLD_SET;

// Where in its row the old set of a kind stands.
#[tactic(auto, unfolding(evidence::specs::Rows::place_of_set))]
fn old_place(kind: u32) -> usize
    ensures { (result ≡ place_of_set old_layout.masks kind) × (result + set_size old_layout.masks ≤ row_size old_layout.masks) }
{
    if kind == ECHO {
        ECHO_PLACE
    } else {
        OLD_INIT_PLACE
    }
}

// The old set at place i. Its mask is one word, the lower one of a mask today.
#[tactic(auto, unfolding(evidence::specs::Rows::set_at))]
fn read_old_set(b: &[u8], i: usize) -> Ticks
    requires { i + set_size old_layout.masks ≤ length b.now }
    ensures set { held_by result ≡ set_at old_layout.masks b.now i }
    ensures narrow { mask_by result.mask < 2 ^ old_layout.window }
{
    Ticks {
        top: word(b, i),
        mask: Mask::from(long(b, i + 4)),
    }
}

// So many old rows, from a place of the bytes on. What is asked of them here and in judge.rt is asked of today's rows by crates evidence,
// search and rules, by twins of these functions but for the bytes of a mask. They stay apart: how many bytes a mask has would be a
// parameter of every function of those crates for this one's sake alone.
#[derive(Drop)]
pub(crate) struct OldRows<'a> {
    bytes: &'a [u8],
    from: usize,
    count: usize,
}

impl<'a> Model for OldRows<'a> {
    ghost use Rattle.std.specs.Prelude.{◌+◌, ◌*◌, ◌≤◌, List, length};
    ghost use Rattle.evidence.specs.Rows.{Row, row_size, rows_at};
    ghost use Rattle.node.specs.Layout.{old_layout};

    ghost Value = { List Row };

    ghost view = { λ r. rows_at old_layout.masks r.count r.bytes.now r.from };

    ghost invariant = { λ r. r.from + r.count * row_size old_layout.masks ≤ length r.bytes.now };
}

impl<'a> OldRows<'a> {
    // The n rows of an old image.
    pub(crate) fn new(old: &'a [u8], n: usize) -> OldRows<'a>
        requires { image_size old_layout n ≤ length old.now }
        ensures { result ≡ old_rows n old.now }
    {
        OldRows {
            bytes: old,
            from: HEADER,
            count: n,
        }
    }

    // How many rows there are.
    #[tactic(auto, using(evidence::proofs::Lists::count_is))]
    pub(crate) fn len(&self) -> usize
        ensures { result ≡ length self.now }
    {
        self.count
    }

    // So many of the rows, from row k on.
    #[tactic(auto, using(crate::proofs::OldRows::part_is))]
    pub(crate) fn part(&self, k: usize, many: usize) -> OldRows<'a>
        requires { k + many ≤ length self.now }
        ensures { result ≡ take many (drop k self.now) }
    {
        OldRows {
            bytes: self.bytes,
            from: self.from + k * OLD_ROW,
            count: many,
        }
    }

    // The serials, a column of words a row apart.
    #[tactic(auto, using(crate::proofs::OldRows::serials_are))]
    pub(crate) fn serials(&self) -> Column<'a>
        ensures { result ≡ serials_in self.now }
    {
        Column::new(self.bytes, self.from, OLD_ROW, self.count)
    }

    // The bytes of row k.
    #[tactic(auto, using(crate::proofs::OldRows::row_inside))]
    fn row(&self, k: usize) -> &[u8]
        requires { k < length self.now }
        ensures row { row_at old_layout.masks result.now 0 ≡ get_or self.now k no_row }
        ensures size { length result.now ≡ row_size old_layout.masks }
    {
        let at = self.from + k * OLD_ROW;
        &self.bytes[at..at + OLD_ROW]
    }

    // Its serial,
    #[tactic(auto, unfolding(evidence::specs::Rows::row_at))]
    fn serial(&self, k: usize) -> u32
        requires { k < length self.now }
        ensures { result ≡ (get_or self.now k no_row).serial }
    {
        word(self.row(k), 0)
    }

    // and its set of a kind.
    #[tactic(auto, using(evidence::proofs::Lists::set_is))]
    pub(crate) fn set(&self, k: usize, kind: u32) -> Ticks
        requires { k < length self.now }
        ensures set { held_by result ≡ set_of kind (get_or self.now k no_row) }
        ensures narrow { mask_by result.mask < 2 ^ old_layout.window }
    {
        read_old_set(self.row(k), old_place(kind))
    }

    // Writes the rows as those of the layout in service, behind the header's place of b.
    pub(crate) fn widen(&self, b: &mut [u8])
        requires { image_size layout (length self.now) ≤ length b.old }
        ensures { b.new ≡ put_rows mask_bytes b.old header_size self.now }
    {
        for k in 0..self.len() {
            let echo = self.set(k, ECHO);
            let init = self.set(k, INIT);
            put_row(b, HEADER + k * ROW, self.serial(k), echo, init);
        }
    }
}
