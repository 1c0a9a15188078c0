// One look at every row and its mask: which of the ticks just below x may be held by m rows. A look counts as many ticks as a word has
// bits, also where the window is wider: a second look then sees the rest.
ghost use Rattle.std.specs.Prelude.{◌≡◌, ◌≤◌, ◌<◌, get_or, length};
ghost use Rattle.evidence.specs.Rows.{no_row, set_of};
ghost use Rattle.sets.specs.Sets.{mask_bits, tick_count, held_by};
ghost use Rattle.search.specs.Levels.{capacity};
ghost use Rattle.search.specs.Scan.{view, Shown, Counted, Scanned};

use crate::levels::Levels;
use crate::question::Question;
use sets::mask::Mask;
use sets::ticks::Ticks;

// Bits of a word and of a mask, beside numbers like x.
const WORD: u64 = Mask::WORD as u64;

const BITS: u64 = Mask::BITS as u64;

// How many ticks one look counts, where the window is w wide.
pub(crate) fn view(w: u32) -> u64
    ensures { result ≡ view w }
{
    (w as u64).min(WORD)
}

// The ticks of a set just below x: bit d for tick x - 1 - d.
fn seen_from(s: Ticks, w: u32, x: u64) -> u64
    requires { w ≤ mask_bits }
    ensures { Shown w (held_by s) x result }
{
    let mask = s.mask.cut(w);
    let y = s.top as u64 + 1;
    if y < x {
        let up = x - y;
        if up < WORD { mask.word_at(0) << up } else { 0 }
    } else {
        let down = y - x;
        if down < BITS {
            mask.word_at(down as u32)
        } else {
            0
        }
    }
}

impl<'a> Question<'a> {
    // Counts row k. Its mask is read only where its set of the kind reaches into the ticks looked at.
    fn count_row(&self, levels: Levels, k: usize, x: u64) -> Levels
        requires { (k < length self.now.rows.now) × (x ≤ tick_count) }
        ensures { Counted self.now.w (set_of self.now.kind (get_or self.now.rows.now k no_row)) x levels result }
    {
        let y = self.rows.top(k, self.kind) as u64 + 1;
        if y + view(self.w) <= x || x + self.w as u64 <= y {
            return levels;
        }
        levels.raised(seen_from(self.rows.set(k, self.kind), self.w, x))
    }

    // Looks at the sets: bit d for tick x - 1 - d, set where m of the rows hold that tick.
    pub(crate) fn scan(&self, m: u64, x: u64) -> u64
        requires { (0 < m) × (m ≤ capacity) × (x ≤ tick_count) }
        ensures { Scanned self.now.w self.now.kind m x self.now.rows.now result }
    {
        let mut levels = Levels::short_of(m);
        for k in 0..self.rows.len() {
            levels = self.count_row(levels, k, x);
        }
        levels.over
    }
}
