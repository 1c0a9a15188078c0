// The two writers: number, length written, and every byte of the output afterwards. An output begins as bytes 0xee, so that a byte
// that a refusal changes, or one behind what is written, shows. A remainder keeps the room within the array: no case asks for more
// than the longest form.
use crate::case::Case;
use crate::say;
use fields::field::word;
use forms::form::{SERIALS, write_form};
use forms::frame::{Frame, write_frame};
use forms::roster::MOST_LINES;
use std::io;

// Bytes of the longest form.
const ROOM: usize = SERIALS + 4 * MOST_LINES;

// The most serials of a case: a byte does not hold their number.
const LONGEST: usize = 260;

// The serials in b.
fn serials(b: &[u8]) -> [u32; LONGEST] {
    let mut list = [0u32; LONGEST];
    for (serial, line) in list.iter_mut().zip(b.chunks_exact(4)) {
        *serial = word(line, 0);
    }
    list
}

pub(crate) fn form(rt: &impl Print, case: Case, b: &[u8]) -> io::Result<()> {
    let room = case.room % (ROOM + 1);
    let mut all = [0xeeu8; ROOM];
    let out = &mut all[..room];
    let list = serials(b);
    let n = b.len() / 4 % (LONGEST + 1);
    let answer = write_form(case.count, case.serial, &list[..n], out);
    say::written(rt, answer, out)
}

pub(crate) fn frame(rt: &impl Print, case: Case) -> io::Result<()> {
    let room = case.room % (ROOM + 1);
    let mut all = [0xeeu8; ROOM];
    let out = &mut all[..room];
    let frame = Frame {
        kind: case.kind,
        flag: case.flag,
        tick: case.tick,
    };
    let answer = write_frame(frame, case.last, out);
    say::written(rt, answer, out)
}
