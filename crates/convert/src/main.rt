// Converts an image at service: an image of the old layout on standard input, the new one on standard output; or, where it is refused, the
// number on standard error, and where the image could not be written whole, that. It reads, converts and writes, and nothing else. Of the
// input no more is read than the longest old image has: its size stands in it, bytes behind that are not looked at, and a stated size
// above the longest is refused whatever follows.
#![tactic(auto)]

use converter::calls::{MOST_OLD_IMAGE, convert};
use node::image::MOST_IMAGE;
use std::io;
use text::input::read_full;

fn main(rt: HostRuntime) -> io::Result<()> {
    let mut old = [0u8; MOST_OLD_IMAGE];
    let size = read_full(&mut rt.reader(), &mut old);
    let mut image = [0u8; MOST_IMAGE];
    // the call that C is given, so its answer tells by a number
    let done = convert(&old[..size], &mut image);
    if done.number != 0 {
        eprintln!(rt; "refused {}", done.number)?;
        return Ok(());
    }
    let written = done.written as usize;
    // an image always fits the room of the longest
    if written <= MOST_IMAGE {
        if rt.write_all(&image[..written]).is_err() {
            eprintln!(rt; "cannot write")?;
        }
    }
    Ok(())
}
