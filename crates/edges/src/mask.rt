// Masks: what each function of a mask gives at a place. A place outside the mask is no case: the functions ask for one inside.
use crate::say;
use sets::mask::Mask;
use std::io;

// Every byte of a buffer after the store at place 1, and the mask read back.
pub(crate) fn store(rt: &impl Print, mask: Mask) -> io::Result<()> {
    let mut b = [0xeeu8; 2 + Mask::BYTES];
    mask.put(&mut b, 1);
    say::bytes(rt, &b)?;
    say::mask(rt, Mask::read(&b, 1))
}

pub(crate) fn bit(rt: &impl Print, mask: Mask, i: u32) -> io::Result<()> {
    if i < Mask::BITS {
        say::number(rt, u64::from(mask.bit(i)))
    } else {
        say::bad(rt)
    }
}

pub(crate) fn word_at(rt: &impl Print, mask: Mask, i: u32) -> io::Result<()> {
    if i < Mask::BITS {
        say::number(rt, mask.word_at(i))
    } else {
        say::bad(rt)
    }
}

pub(crate) fn below(rt: &impl Print, mask: Mask, k: u32) -> io::Result<()> {
    if k <= Mask::BITS {
        say::yes_or_no(rt, mask.is_below(k))
    } else {
        say::bad(rt)
    }
}

pub(crate) fn up(rt: &impl Print, mask: Mask, d: u32) -> io::Result<()> {
    if 0 < d && d < Mask::BITS {
        say::mask(rt, mask.up(d))
    } else {
        say::bad(rt)
    }
}

pub(crate) fn cut(rt: &impl Print, mask: Mask, w: u32) -> io::Result<()> {
    if w <= Mask::BITS {
        say::mask(rt, mask.cut(w))
    } else {
        say::bad(rt)
    }
}

pub(crate) fn mark(rt: &impl Print, mask: Mask, d: u32) -> io::Result<()> {
    if d < Mask::BITS {
        say::mask(rt, mask.marked(d))
    } else {
        say::bad(rt)
    }
}
