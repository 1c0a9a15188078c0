// Sets of ticks in the papers' window of 128: top and mask, and whether an image may hold them.
use crate::say;
use sets::ticks::Ticks;
use std::io;

pub const WINDOW: u32 = 128;

pub(crate) fn show(rt: &impl Print, s: Ticks) -> io::Result<()> {
    say::number(rt, s.top as u64)?;
    say::mask(rt, s.mask)
}

pub(crate) fn show_proper(rt: &impl Print, s: Ticks) -> io::Result<()> {
    say::yes_or_no(rt, s.is_proper(WINDOW))
}
