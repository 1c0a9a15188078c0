// Inputs read into a buffer that the caller lends.
ghost use Rattle.std.specs.Prelude.{◌≤◌, length, take};
ghost use Rattle.std.specs.Io.KnownBytes.{Consumes};

use std::io;
use std::io::Read;

// Reads until the buffer is full, the input ends or a read fails: how many bytes stand at the front of the buffer, which are those that the
// input began with, and the error where a read failed. By hand, since read_exact of an input that ends early does not say how many came,
// and read_to_end needs a heap.
pub fn read_front<R: Read>(from: &mut R, bytes: &mut [u8]) -> (usize, io::Result<()>)
    ensures within { result.0 ≤ length bytes.new }
    ensures bytes { Consumes (R.remaining from.old) (R.remaining from.new) (take result.0 bytes.new) }
{
    let mut size = 0;
    while size < bytes.len() {
        match from.read(&mut bytes[size..]) {
            Ok(0) => return (size, Ok(())),
            Ok(more) => size += more,
            Err(e) => return (size, Err(e)),
        }
    }
    (size, Ok(()))
}

// The same, where what can't be read counts as the end.
pub fn read_full<R: Read>(from: &mut R, bytes: &mut [u8]) -> usize
    ensures within { result ≤ length bytes.new }
    ensures bytes { Consumes (R.remaining from.old) (R.remaining from.new) (take result bytes.new) }
{
    read_front(from, bytes).0
}
