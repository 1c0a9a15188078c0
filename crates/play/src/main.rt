// Plays a log: the log on standard input, its listing on standard output. One byte more than the longest log is read, so that a
// longer one is noticed; all the rest is the proved player's.
#![tactic(auto)]

use logs::file::LONGEST;
use logs::player::{LISTING_ROOM, play};
use std::io;
use text::input::read_full;

fn main(rt: HostRuntime) -> io::Result<()> {
    let mut bytes = [0u8; LONGEST + 1];
    let size = read_full(&mut rt.reader(), &mut bytes);
    let mut listing = [0u8; LISTING_ROOM];
    if let Ok(length) = play(&bytes[..size], &mut listing) {
        rt.write_all(&listing[..length])?;
    }
    Ok(())
}
