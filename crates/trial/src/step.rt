// A step: a head of 20 bytes, then its data, which is a text, an image, a form, a frame or an old image.
ghost use Rattle.std.specs.Prelude.{◌≤◌, ◌<◌, IfOk, length};

use crate::call::IMAGE;
use crate::{call, show};
use fields::field::{half, word};
use node::calls;
use std::io;

// Why a step is not taken.
#[derive(Drop)]
pub enum Fault {
    // it is none, or cut short
    NoStep,
    // its line can't be printed
    Output(io::Error),
}

impl From<io::Error> for Fault {
    fn from(e: io::Error) -> Fault {
        Fault::Output(e)
    }
}

// What the head says. A call is lent `size` bytes of the image and `room` of the output. Of the image its line shows the bytes
// below `front` and those from `from` to `to`; of the output the first `written` bytes may change.
#[derive(Clone, Copy)]
pub struct Step {
    pub kind: u32,
    pub size: usize,
    pub room: usize,
    pub front: usize,
    pub from: usize,
    pub to: usize,
    pub written: usize,
    pub port: u32,
}

fn read(b: &[u8]) -> Step
    requires { 20 ≤ length b.now }
{
    Step {
        kind: half(b, 0),
        size: half(b, 4) as usize,
        room: half(b, 6) as usize,
        front: half(b, 8) as usize,
        from: half(b, 10) as usize,
        to: half(b, 12) as usize,
        written: half(b, 14) as usize,
        port: word(b, 16),
    }
}

// Puts an image, sound or not, at the front of the image buffer.
fn hand_in(data: &[u8], image: &mut [u8; IMAGE]) -> Result<(), Fault> {
    if image.len() < data.len() {
        return Err(Fault::NoStep);
    }
    image[..data.len()].copy_from_slice(data);
    Ok(())
}

// Makes a step: a text written, an image handed in or shown, a read, a boot, a delivery, a conversion, the buffer made as it was before the
// first step. The input numbers them: an enum would say each twice, where it is made of a number and where it is taken.
fn make(rt: &impl Print, step: Step, data: &[u8], image: &mut [u8; IMAGE]) -> Result<(), Fault> {
    match step.kind {
        1 => rt.write_all(data)?,
        2 => hand_in(data, image)?,
        3 => show::image(rt, image, step.front)?,
        4 => call::read(rt, step, image)?,
        5 => call::run(rt, step, image, |image, out| calls::boot(data, image, out))?,
        6 => call::run(
            rt,
            step,
            image,
            |image, out| calls::deliver(image, step.port, data, out),
        )?,
        7 => call::make_new(rt, step, data, image)?,
        8 => *image = [165u8; IMAGE],
        _ => return Err(Fault::NoStep),
    }
    Ok(())
}

// Takes the first step, and gives what stands behind it.
pub(crate) fn take<'a>(
    rt: &impl Print,
    b: &'a [u8],
    image: &mut [u8; IMAGE],
) -> Result<&'a [u8], Fault>
    ensures { IfOk result (λ behind. length behind.now < length b.now) }
{
    if b.len() < 20 {
        return Err(Fault::NoStep);
    }
    let end = 20 + half(b, 2) as usize;
    if b.len() < end {
        return Err(Fault::NoStep);
    }
    make(rt, read(b), &b[20..end], image)?;
    Ok(&b[end..])
}
