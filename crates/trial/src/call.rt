// The calls of a node and of the converter, each with what came of it. The image buffer has more than a row behind the longest image and
// the output 8 bytes behind what a call asks, so that bytes behind what a call writes are seen to stay.
use crate::show;
use crate::step::{Fault, Step};
use converter::calls::convert;
use node::calls;
use node::calls::Answer;
use node::image::MOST_IMAGE;
use rules::node::Node;

// Bytes of the image buffer.
pub(crate) const IMAGE: usize = MOST_IMAGE + 48;

// Bytes of the output.
pub(crate) const OUT: usize = Node::ROOM + 8;

// Boots or delivers with a fresh output, and prints what came of it. The call is lent only the first bytes of the two buffers, so that it
// may have too little room.
pub(crate) fn run<F: FnOnce(&mut [u8], &mut [u8]) -> Answer>(
    rt: &impl Print,
    step: Step,
    image: &mut [u8; IMAGE],
    call: F,
) -> Result<(), Fault>
    requires { F.IsAlwaysCallable call }
{
    if step.size > IMAGE || step.room > OUT {
        return Err(Fault::NoStep);
    }
    let old = *image;
    let mut out = [165u8; OUT];
    let answer = call(&mut image[..step.size], &mut out[..step.room]);
    show::answer(rt, step, answer, &old, image, &out)?;
    Ok(())
}

// Converts an old image into the first bytes of the image buffer, and prints what came of it.
pub(crate) fn make_new(
    rt: &impl Print,
    step: Step,
    data: &[u8],
    image: &mut [u8; IMAGE],
) -> Result<(), Fault> {
    if step.size > IMAGE {
        return Err(Fault::NoStep);
    }
    let before = *image;
    let made = convert(data, &mut image[..step.size]);
    show::conversion(rt, step, made, &before, image)?;
    Ok(())
}

pub(crate) fn read(rt: &impl Print, step: Step, image: &[u8; IMAGE]) -> Result<(), Fault> {
    if step.size > IMAGE {
        return Err(Fault::NoStep);
    }
    let reading = calls::read(&image[..step.size]);
    show::pair(rt, reading.number, reading.clock)?;
    show::end(rt)?;
    Ok(())
}
