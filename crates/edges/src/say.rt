// What a line of output is made of: numbers, masks or bytes with a space before each.
use forms::answer::Refusal;
use sets::mask::Mask;
use std::io;

pub(crate) fn number(rt: &impl Print, x: u64) -> io::Result<()> {
    print!(rt; " {x}")
}

pub(crate) fn pair(rt: &impl Print, x: u32, y: u32) -> io::Result<()> {
    number(rt, x as u64)?;
    number(rt, y as u64)
}

// A tick that was found as tick + 1, and 0 for none.
pub(crate) fn tick(rt: &impl Print, t: Option<u32>) -> io::Result<()> {
    number(rt, t.map_or(0, |t| u64::from(t) + 1))
}

// A mask as one number in hexadecimal.
pub(crate) fn mask(rt: &impl Print, m: Mask) -> io::Result<()> {
    let bits = m.bits;
    print!(rt; " {bits:032x}")
}

// By hand: Display prints a bool as true or false.
pub(crate) fn yes_or_no(rt: &impl Print, yes: bool) -> io::Result<()> {
    if yes {
        rt.write_all(b" yes")
    } else {
        rt.write_all(b" no")
    }
}

pub(crate) fn end(rt: &impl Print) -> io::Result<()> {
    rt.write_all(b"\n")
}

// Stands where what came back would, for a call that is not known; and at the end of an input that is cut short.
pub(crate) fn bad(rt: &impl Print) -> io::Result<()> {
    rt.write_all(b" bad case")
}

// All of b in hexadecimal, so that a byte that changed shows wherever it stands.
pub(crate) fn bytes(rt: &impl Print, b: &[u8]) -> io::Result<()> {
    rt.write_all(b" ")?;
    for x in b {
        print!(rt; "{x:02x}")?;
    }
    Ok(())
}

// The number of a refusal, and zeros behind it.
pub(crate) fn refused(rt: &impl Print, why: Refusal) -> io::Result<()> {
    pair(rt, u32::from(why), 0)?;
    pair(rt, 0, 0)
}

// What a writer answered: number, length written, and the output as it left it.
pub(crate) fn written(
    rt: &impl Print,
    answer: Result<usize, Refusal>,
    out: &[u8],
) -> io::Result<()> {
    match answer {
        Ok(size) => {
            number(rt, 0)?;
            number(rt, size as u64)?;
        }
        Err(why) => pair(rt, u32::from(why), 0)?,
    }
    bytes(rt, out)
}
