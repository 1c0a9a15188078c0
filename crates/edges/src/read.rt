// The readers: number, n, f and own serial of a form; number, kind, flag and tick of a frame. A refusal gives zeros behind its
// number.
use crate::say;
use forms::form::read_form;
use forms::frame::read_frame;
use std::io;

pub(crate) fn form(rt: &impl Print, b: &[u8]) -> io::Result<()> {
    match read_form(b) {
        Ok(form) => {
            say::pair(rt, 0, form.lines)?;
            say::pair(rt, form.faults, form.own)
        }
        Err(why) => say::refused(rt, why),
    }
}

pub(crate) fn frame(rt: &impl Print, last: u32, b: &[u8]) -> io::Result<()> {
    match read_frame(b, last) {
        Ok(frame) => {
            say::pair(rt, 0, frame.kind)?;
            say::pair(rt, frame.flag, frame.tick)
        }
        Err(why) => say::refused(rt, why),
    }
}
