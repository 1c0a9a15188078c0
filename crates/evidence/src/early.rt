// Whether a tick is held by at least m rows, told as early as it can be: no row is read behind the one that decides. A joint between
// layers: the window has to fit a mask, which the node has checked before.
ghost use Rattle.std.specs.Prelude.{◌≡◌, ◌≤◌};
ghost use Rattle.evidence.specs.Early.{decide};
ghost use Rattle.sets.specs.Sets.{mask_bits};

use crate::list::Rows;

// Yes or no, and how many rows were read for it.
#[derive(Drop)]
pub struct Decided {
    pub held: bool,
    pub read: usize,
}

impl<'a> Rows<'a> {
    // Whether at least m of the rows hold (kind, t). As many as n - m can be spared; one more without it, and the answer is no.
    pub fn decide(&self, kind: u32, w: u32, t: u32, m: usize) -> Decided
        requires { w ≤ mask_bits }
        ensures { result ≡ decide w kind t m self.now }
    {
        let n = self.len();
        if m == 0 {
            return Decided {
                held: true,
                read: 0,
            };
        }
        if n < m {
            return Decided {
                held: false,
                read: 0,
            };
        }
        let mut lacking = m;
        let mut spare = n - m;
        for k in 0..n {
            let read = k + 1;
            if self.holds(k, kind, w, t) {
                lacking -= 1;
                if lacking == 0 {
                    return Decided { held: true, read };
                }
            } else if spare == 0 {
                return Decided { held: false, read };
            } else {
                spare -= 1;
            }
        }
        // with the last row at the latest nothing is lacking, or one row too many is without it
        unreachable!()
    }
}
