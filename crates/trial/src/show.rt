// What a line of output is made of.
use crate::call::{IMAGE, OUT};
use crate::step::Step;
use converter::calls::Conversion;
use node::calls::Answer;
use rules::record::RECORD;
use std::io;

fn number(rt: &impl Print, n: u32) -> io::Result<()> {
    print!(rt; " {n}")
}

pub(crate) fn pair(rt: &impl Print, m: u32, n: u32) -> io::Result<()> {
    number(rt, m)?;
    number(rt, n)
}

pub(crate) fn end(rt: &impl Print) -> io::Result<()> {
    rt.write_all(b"\n")
}

pub(crate) fn bad(rt: &impl Print) -> io::Result<()> {
    rt.write_all(b"bad call\n")
}

// The byte at place i of a buffer in hex, with a space before each word of four.
fn byte(rt: &impl Print, i: usize, x: u8) -> io::Result<()> {
    if i % 4 == 0 {
        rt.write_all(b" ")?;
    }
    print!(rt; "{x:02x}")
}

// The bytes of b from one place up to another.
pub(crate) fn bytes(rt: &impl Print, b: &[u8], from: usize, to: usize) -> io::Result<()> {
    for i in from..to.min(b.len()) {
        byte(rt, i, b[i])?;
    }
    Ok(())
}

pub(crate) fn image(rt: &impl Print, b: &[u8], to: usize) -> io::Result<()> {
    bytes(rt, b, 0, to)?;
    end(rt)
}

fn part(rt: &impl Print, b: &[u8], from: usize, to: usize) -> io::Result<()> {
    if from < to {
        rt.write_all(b" |")?;
        bytes(rt, b, from, to)?;
    }
    Ok(())
}

// Whether a buffer kept its bytes from one place up to another.
fn kept(old: &[u8], new: &[u8], from: usize, to: usize) -> bool {
    match (old.get(from..to), new.get(from..to)) {
        (Some(before), Some(after)) => before == after,
        _ => false,
    }
}

// Whether all is as it was but the bytes of the image that the line shows, which the model's line is held against, and those of
// the output that may change.
fn same(step: Step, old: &[u8], image: &[u8], out: &[u8]) -> bool {
    let fresh = [165u8; OUT];
    kept(old, image, step.front, step.from)
        && kept(old, image, step.to, IMAGE)
        && kept(&fresh, out, step.written, OUT)
}

// The end of a line: whether what it does not show stayed.
fn end_with(rt: &impl Print, stayed: bool) -> io::Result<()> {
    if stayed {
        rt.write_all(b" | same\n")
    } else {
        rt.write_all(b" | changed\n")
    }
}

// Number, bytes written, the bytes of the image that the step names, and whether the rest stayed.
pub(crate) fn conversion(
    rt: &impl Print,
    step: Step,
    made: Conversion,
    old: &[u8],
    image: &[u8],
) -> io::Result<()> {
    pair(rt, made.number, made.written)?;
    part(rt, image, 0, step.front)?;
    end_with(rt, kept(old, image, step.front, IMAGE))
}

// Number, records, rules fired, the bytes of the image that the step names, and whether the rest stayed.
pub(crate) fn answer(
    rt: &impl Print,
    step: Step,
    answer: Answer,
    old: &[u8],
    image: &[u8],
    out: &[u8],
) -> io::Result<()> {
    pair(rt, answer.number, answer.records)?;
    number(rt, answer.fired)?;
    rt.write_all(b" |")?;
    bytes(rt, out, 0, RECORD * (answer.records as usize))?;
    part(rt, image, 0, step.front)?;
    part(rt, image, step.from, step.to)?;
    end_with(rt, same(step, old, image, out))
}
