// A case of the input: a head, the label, and the bytes that the call is given. The head has the call's number and the length of
// the label, in two bytes each, the length of the bytes, in four, and what `Case` has; all of it big-endian.
// tests/model/edges.py writes it.
ghost use Rattle.std.specs.Prelude.{◌≤◌, ◌<◌, IfOk, IfSome, length};

use crate::set::WINDOW;
use crate::{field, mask, read, row, say, set, write};
use evidence::list::Rows;
use evidence::rows::ROW;
use fields::field::{half, long, word};
use forms::form::read_serial;
use search::greatest::find_greatest;
use sets::mask::Mask;
use sets::ticks::Ticks;
use std::io;

// Bytes of a head.
const HEAD: usize = 64;

// The numbers of a case. Each call takes those that it has a use for.
#[derive(Drop)]
pub struct Case {
    // bytes of the output
    pub room: usize,
    // f, the holders wanted, the field to store, or a place in the mask
    pub count: u32,
    pub serial: u32,
    pub kind: u32,
    pub flag: u32,
    pub tick: u32,
    pub last: u32,
    pub top: u32,
    // the line, the least tick, or the long field to store
    pub value: u64,
    pub mask: Mask,
}

fn head(b: &[u8]) -> Case
    requires { 64 ≤ length b.now }
{
    Case {
        room: word(b, 8) as usize,
        count: word(b, 12),
        serial: word(b, 16),
        kind: word(b, 20),
        flag: word(b, 24),
        tick: word(b, 28),
        last: word(b, 32),
        top: word(b, 36),
        value: long(b, 40),
        mask: Mask::read(b, 48),
    }
}

// Makes a call of a mask at a place of it, and prints what came back. The input numbers the calls, here as in the three functions below:
// an enum of them would say each twice, where it is made of a number and where it is taken.
fn call_mask(rt: &impl Print, number: u32, m: Mask, place: u32) -> io::Result<()> {
    match number {
        16 => mask::store(rt, m),
        17 => mask::bit(rt, m, place),
        18 => mask::word_at(rt, m, place),
        19 => mask::below(rt, m, place),
        20 => mask::up(rt, m, place),
        21 => mask::cut(rt, m, place),
        22 => mask::mark(rt, m, place),
        _ => say::bad(rt),
    }
}

// Makes a call of a set, or of the crates `evidence` or `search`, and prints what came back. Rows are as many as the bytes have.
fn call_evidence(rt: &impl Print, number: u32, case: Case, b: &[u8]) -> io::Result<()> {
    let s = Ticks {
        top: case.top,
        mask: case.mask,
    };
    match number {
        8 => set::show(rt, Ticks::none()),
        9 => set::show(rt, s.after(WINDOW, case.kind, case.tick)),
        10 => say::number(rt, u64::from(s.holds(WINDOW, case.tick))),
        11 => set::show_proper(rt, s),
        12 => row::show(rt, b),
        _ => call_rows(rt, number, case, &Rows::new(b, 0, b.len() / ROW)),
    }
}

// Makes a call of rows, or of a mask, and prints what came back.
fn call_rows(rt: &impl Print, number: u32, case: Case, rows: &Rows) -> io::Result<()> {
    let m = case.count as usize;
    match number {
        13 => row::find(rt, case.serial, rows),
        14 => row::ask(rt, case.kind, case.tick, m, rows),
        15 => say::tick(rt, find_greatest(rows, case.kind, WINDOW, m, case.value)),
        _ => call_mask(rt, number, case.mask, case.count),
    }
}

// Makes a call of the crate `forms`, or one of the others.
fn call(rt: &impl Print, number: u32, case: Case, b: &[u8]) -> io::Result<()> {
    match number {
        0 => field::store_half(rt, case.count),
        1 => field::store_word(rt, case.count),
        2 => field::store_long(rt, case.value),
        3 => read::form(rt, b),
        4 => say::number(rt, read_serial(b, case.value as usize) as u64),
        5 => read::frame(rt, case.last, b),
        6 => write::form(rt, case, b),
        7 => write::frame(rt, case),
        _ => call_evidence(rt, number, case, b),
    }
}

// Runs the first case, prints its line, and gives what stands behind the case; nothing where it is cut short.
pub(crate) fn run<'a>(rt: &impl Print, b: &'a [u8]) -> io::Result<Option<&'a [u8]>>
    ensures { IfOk result (λ told. IfSome told (λ behind. length behind.now < length b.now)) }
{
    if b.len() < HEAD {
        return Ok(None);
    }
    let start = HEAD + half(b, 2) as usize;
    let end = start + word(b, 4) as usize;
    if b.len() < end {
        return Ok(None);
    }
    rt.write_all(&b[HEAD..start])?;
    call(rt, half(b, 0), head(b), &b[start..end])?;
    say::end(rt)?;
    Ok(Some(&b[end..]))
}
