// Rows in lent bytes: four rows with frames credited to their senders, where a serial stands, and whether m rows hold a tick.
use crate::say;
use crate::set::WINDOW;
use evidence::list::Rows;
use evidence::rows::{ROW, credit_row};
use fields::field::word;
use forms::column::Column;
use std::io;

// The rows, and their bytes.
const LINES: usize = 4;

const SIZE: usize = LINES * ROW;

// Bytes of a frame to credit: a serial, a kind and a tick.
const CREDIT: usize = 12;

// A serial that stands twice is not credited: credit_row asks for a roster without twins.
fn credit(rows: &mut [u8; SIZE], serial: u32, kind: u32, tick: u32) {
    if Column::new(rows, 0, ROW, LINES).count(serial) <= 1 {
        credit_row(rows, 0, LINES, WINDOW, serial, kind, tick);
    }
}

// Credits the frames in b, and shows the rows.
fn credit_all(rt: &impl Print, rows: &mut [u8; SIZE], b: &[u8]) -> io::Result<()> {
    for frame in b.chunks_exact(CREDIT) {
        credit(rows, word(frame, 0), word(frame, 4), word(frame, 8));
    }
    say::bytes(rt, rows)
}

// The rows of the serials 11, 22, 33 and 44, each of which its last byte holds, after the frames in b.
pub(crate) fn show(rt: &impl Print, b: &[u8]) -> io::Result<()> {
    let mut rows = [0u8; SIZE];
    rows[3] = 11;
    rows[ROW + 3] = 22;
    rows[2 * ROW + 3] = 33;
    rows[3 * ROW + 3] = 44;
    credit_all(rt, &mut rows, b)
}

pub(crate) fn find(rt: &impl Print, serial: u32, rows: &Rows) -> io::Result<()> {
    match rows.find(serial) {
        Some(k) => say::number(rt, k as u64),
        None => rt.write_all(b" nowhere"),
    }
}

pub(crate) fn ask(rt: &impl Print, kind: u32, tick: u32, m: usize, rows: &Rows) -> io::Result<()> {
    let told = rows.decide(kind, WINDOW, tick, m);
    say::yes_or_no(rt, told.held)?;
    say::number(rt, told.read as u64)
}
