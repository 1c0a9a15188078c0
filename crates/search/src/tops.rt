// What the tops of the rows tell, with no mask read: how many rows can hold a tick at all, and where further down more of them can.
ghost use Rattle.std.specs.Prelude.{◌≡◌, ◌≤◌, leb};
ghost use Rattle.sets.specs.Sets.{tick_count};
ghost use Rattle.search.specs.Tops.{many_tops, Covered};

use crate::question::Question;
use evidence::list::Rows;

// How many of the rows have a top, in their set of the kind, of at least low.
fn count_reaching(rows: &Rows, kind: u32, low: u64) -> usize
    ensures { result ≡ many_tops (leb low) kind rows.now }
{
    let mut found: usize = 0;
    for k in 0..rows.len() {
        if low <= rows.top(k, kind) as u64 {
            found += 1;
        }
    }
    found
}

// Whether m of the rows have a top, in their set of the kind, of at least low: where they have not, no tick from there on is held by m.
// Who searches asks it first, since in most calls it tells that there is nothing to find.
pub fn is_reached(rows: &Rows, kind: u32, m: usize, low: u64) -> bool
    ensures { result ≡ leb m (many_tops (leb low) kind rows.now) }
{
    m <= count_reaching(rows, kind, low)
}

#[derive(Drop)]
pub struct Cover {
    // how many rows have tick x - 1 in their window
    pub here: usize,
    // the greatest top below tick x - 1, as tick + 1. It is a bound as x is, and no tick is below 0: so 0 for no top, and no Option
    pub next: u64,
}

impl<'a> Question<'a> {
    // Looks at the tops of the rows. Downwards a row begins to hold ticks at its top: so from tick x - 1 as far as the next top a tick is
    // held by no more rows than cover tick x - 1.
    pub(crate) fn look_at_tops(&self, x: u64) -> Cover
        requires { x ≤ tick_count }
        ensures { Covered self.now.w self.now.kind x self.now.rows.now result }
    {
        let end = x + self.w as u64;
        let mut here: usize = 0;
        let mut next: u64 = 0;
        for k in 0..self.rows.len() {
            let y = self.rows.top(k, self.kind) as u64 + 1;
            if y < x {
                next = next.max(y);
            } else if y < end {
                here += 1;
            }
        }
        Cover { here, next }
    }
}
