// The greatest tick of a kind that enough serials hold. A joint between layers: it asks that the window fits a mask, which the node has
// checked before.
ghost use Rattle.std.specs.Prelude.{◌≡◌, ◌≤◌, take};
ghost use Rattle.evidence.specs.Holders.{greatest, best_of};
ghost use Rattle.sets.specs.Sets.{mask_bits, held_by};
ghost use Rattle.search.specs.Order.{places, reaching, Ordered};
ghost use Rattle.evidence.specs.Holders.{tick_told};

use crate::levels::Levels;
use crate::order::{PLACES, pass, sort_tops};
use crate::question::Question;
use crate::scan::view;
use evidence::list::Rows;
use sets::mask::Mask;
use sets::ticks::Ticks;

impl<'a> Question<'a> {
    // The greatest tick of one set s, at least low, that m of the rows hold. The set's own bit is tested first.
    fn better(&self, m: usize, low: u64, s: Ticks) -> Option<u32>
        ensures { tick_told result ≡ best_of self.now.w self.now.kind m low self.now.rows.now (held_by s) }
    {
        // from the greatest tick down
        for d in 0..self.w {
            let x = (s.top as u64 + 1).saturating_sub(d as u64);
            if x <= low {
                return None;
            }
            let t = (x - 1) as u32;
            if s.holds(self.w, t) && self.rows.decide(self.kind, self.w, t, m).held {
                return Some(t);
            }
        }
        None
    }

    // The same as find_greatest, by a walk downwards from the last tick that a top can tell, along the tops in order. Masks are read only
    // where enough windows cover a tick. Where m is more than a counter can tell, the ticks that it shows are counted one by one. (The
    // walk goes on from where it is told to, so x is no count, and a `for` would not do.)
    fn walk_down(&self, m: usize, low: u64, ys: &[u64; PLACES]) -> Option<u32>
        requires { Ordered (reaching self.now.kind (take places self.now.rows.now)) places ys.now }
        ensures { tick_told result ≡ greatest self.now.w self.now.kind m low self.now.rows.now }
    {
        let enough = m.max(1);
        let short = (enough as u64).min(Levels::CAPACITY);
        let mut ended: usize = 0;
        let mut x = self.rows.tick_bound();
        while low < x {
            ended = pass(ys, self.w, x, ended);
            let from = self.covered_from(enough, x, ys, ended);
            if from < x {
                x = from;
            } else {
                let held = self.scan(short, x);
                if held != 0 {
                    let s = Ticks {
                        top: (x - 1) as u32,
                        mask: Mask::from(held),
                    };
                    if let Some(t) = self.better(enough, low, s) {
                        return Some(t);
                    }
                }
                x = x.saturating_sub(view(self.w));
            }
        }
        None
    }
}

// The greatest tick of a kind that is at least low and that m of the rows hold. Who searches from some low on asks is_reached first:
// mostly too few tops reach so far up, and there is nothing to find.
pub fn find_greatest(rows: &Rows, kind: u32, w: u32, m: usize, low: u64) -> Option<u32>
    requires { w ≤ mask_bits }
    ensures { tick_told result ≡ greatest w kind m low rows.now }
{
    let mut ys = [0u64; PLACES];
    sort_tops(rows, kind, &mut ys);
    Question { rows, kind, w }.walk_down(m, low, &ys)
}
