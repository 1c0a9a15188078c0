// Runs the edges of document 01 that concern fields, forms, frames, masks, sets of ticks and rows: reads cases from standard input,
// and prints a line for each: its label, then what came back. tests/model/edges.py, written from the papers alone, writes both the
// cases, this crate's `stdin`, and the lines, its `stdout`.
#![tactic(auto)]

mod case;
mod field;
mod mask;
mod read;
mod row;
mod say;
mod set;
mod write;

use std::io;
use text::input::read_full;

// Bytes that are read at most.
const MOST: usize = 65_536;

// Runs one case after the other, up to the first that is cut short. (Program `trial` goes through its steps in the same way; the two share
// no crate that is only for tests, and four lines are not worth one.)
fn run_all(rt: &impl Print, b: &[u8]) -> io::Result<()> {
    let mut rest = b;
    while !rest.is_empty() {
        let Some(behind) = case::run(rt, rest)? else {
            return say::bad(rt);
        };
        rest = behind;
    }
    Ok(())
}

fn main(rt: HostRuntime) -> io::Result<()> {
    let mut b = [0u8; MOST];
    let size = read_full(&mut rt.reader(), &mut b);
    run_all(&rt, &b[..size])
}
