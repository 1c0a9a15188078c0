// Takes the steps on standard input: calls of boot, deliver, read and convert, and what goes before them. tests/model/trial.py writes the
// steps, and works out by its own model what they have to print.
#![tactic(auto)]

mod call;
mod show;
mod step;

use crate::call::IMAGE;
use crate::step::Fault;
use std::io;
use text::input::read_full;

// Bytes that are read at most.
const MOST: usize = 65_536;

// (Program `edges` goes through its cases in the same way; four lines are not worth a crate that only tests use.)
// Takes one step after the other on one image, as what a call left is what the next one is lent; ends at the first that is none.
fn take_all(rt: &impl Print, b: &[u8], image: &mut [u8; IMAGE]) -> io::Result<()> {
    let mut rest = b;
    while !rest.is_empty() {
        match step::take(rt, rest, image) {
            Ok(behind) => rest = behind,
            Err(Fault::NoStep) => return show::bad(rt),
            Err(Fault::Output(e)) => return Err(e),
        }
    }
    Ok(())
}

fn main(rt: HostRuntime) -> io::Result<()> {
    let mut b = [0u8; MOST];
    let size = read_full(&mut rt.reader(), &mut b);
    let mut image = [165u8; IMAGE];
    take_all(&rt, &b[..size], &mut image)
}
