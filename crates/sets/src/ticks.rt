// A set of ticks by value: top and mask, bit i of the mask for tick top - i. Each function asks that the window is at most as wide
// as a mask has bits, and at least 1 where it adds: a joint between layers, since only the node knows the window.
ghost use Rattle.std.specs.Prelude.{◌≡◌, ◌≤◌, ◌<◌, eqb};
ghost use Rattle.sets.specs.Ticks.{empty, holds, insert, add, proper};
ghost use Rattle.sets.specs.Sets.{mask_bits, held_by};

use crate::mask::Mask;
use fields::kind::ECHO;

#[derive(Clone, Copy)]
pub struct Ticks {
    pub top: u32,
    pub mask: Mask,
}

impl Ticks {
    // How many ticks a top can tell apart.
    pub const COUNT: u64 = 1 << 32;

    // The empty set. (By hand: the papers have a word for it, and none for a default.)
    pub fn none() -> Ticks
        ensures { held_by result ≡ empty }
    {
        Ticks {
            top: 0,
            mask: Mask::from(0),
        }
    }

    // Whether tick t is held.
    pub fn holds(self, w: u32, t: u32) -> bool
        requires { w ≤ mask_bits }
        ensures { result ≡ eqb (holds w (held_by self) t) 1 }
    {
        if self.top < t {
            return false;
        }
        let d = self.top - t;
        d < w && self.mask.bit(d)
    }

    // The set with tick t.
    fn with(self, w: u32, t: u32) -> Ticks
        requires { (0 < w) × (w ≤ mask_bits) }
        ensures { held_by result ≡ insert w (held_by self) t }
    {
        let top = self.top;
        let mask = self.mask;
        if top < t {
            let up = t - top;
            if up < w {
                // the new top is bit 0, which no old tick has any more
                Ticks {
                    top: t,
                    mask: mask.up(up).cut(w).marked(0),
                }
            } else {
                Ticks {
                    top: t,
                    mask: Mask::from(1),
                }
            }
        } else {
            let down = top - t;
            if down < w {
                Ticks {
                    top,
                    mask: mask.marked(down),
                }
            } else {
                self
            }
        }
    }

    // The set after a frame of its kind: an echo brings three ticks, an init one.
    pub fn after(self, w: u32, kind: u32, j: u32) -> Ticks
        requires { (0 < w) × (w ≤ mask_bits) }
        ensures { held_by result ≡ add w kind (held_by self) j }
    {
        let first = self.with(w, j);
        if kind != ECHO {
            return first;
        }
        if j == 0 {
            return first;
        }
        let second = first.with(w, j - 1);
        if j == 1 {
            return second;
        }
        second.with(w, j - 2)
    }

    // Whether an image may hold this set: no bit outside the window or above the top, bit 0 set unless the set is empty, and the
    // empty set with top 0. Mostly bit 0 is set and the top is as high as the window is wide: then the low word alone is read.
    pub fn is_proper(self, w: u32) -> bool
        requires { w ≤ mask_bits }
        ensures { result ≡ proper w (held_by self) }
    {
        if self.mask.is_odd() {
            // two calls: where w is known to be as many bits as there are, the second costs nothing
            if self.top < w {
                self.mask.is_below(self.top + 1)
            } else {
                self.mask.is_below(w)
            }
        } else {
            self.mask.is_empty() && self.top == 0
        }
    }
}
