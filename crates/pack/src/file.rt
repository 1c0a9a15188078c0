// Reading a file by its name.
ghost use Rattle.std.specs.Prelude.{length};
ghost use Rattle.pack.specs.File.{Within};

use std::fs;
use std::rt::Files;
use text::input::read_front;

// Reads the file of this name into a buffer, until it ends or the buffer is full: what came, or none where the file is unreadable. A folder
// opens, and its first read fails. A file that ends at once is empty, and not unreadable.
pub fn read_file<'a>(rt: &impl Files, name: &[u8], bytes: &'a mut [u8]) -> Option<&'a [u8]>
    ensures { Within result (length bytes.old) }
{
    let path = str::from_utf8(name).ok()?;
    let mut file = fs::open(rt, path).ok()?;
    let (size, ended) = read_front(&mut file, bytes);
    ended.ok()?;
    Some(&bytes[..size])
}
