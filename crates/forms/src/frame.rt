// The reader and the writer of a frame. The last tick stands on the node alone, so it is a parameter.
ghost use Rattle.std.specs.Prelude.{◌≡◌, ◌+◌, ◌≤◌, length};
ghost use Rattle.forms.specs.Form.{written_by};
ghost use Rattle.forms.specs.Frame.{frame_size, known_head, told_by, frame_told, Narrow, put_frame_bytes, frame_written};

use crate::answer::Refusal;
use fields::field::{put_word, word};
use fields::kind::{ECHO, INIT};

// Bytes of a frame.
pub const FRAME: usize = 8;

// The flag of a frame: 0 on what is sent to all, 1 on an answer.
pub const BROADCAST: u32 = 0;

pub const ANSWER: u32 = 1;

// The fields of a frame. The reader gives only a kind and a flag that go together; the writer judges those that it is given.
// Kind and flag stay numbers: `write_frame` is given any, and `frame_written` says for each what it answers.
#[derive(Clone, Copy)]
pub struct Frame {
    pub kind: u32,
    pub flag: u32,
    pub tick: u32,
}

// Whether kind and flag go together: an init is a broadcast, an echo a broadcast or an answer.
fn has_known_head(kind: u32, flag: u32) -> bool
    ensures { result ≡ known_head kind flag }
{
    if kind == INIT {
        return flag == BROADCAST;
    }
    if kind == ECHO {
        return flag <= ANSWER;
    }
    false
}

pub fn read_frame(b: &[u8], last: u32) -> Result<Frame, Refusal>
    ensures { told_by result ≡ frame_told last b.now }
{
    if b.len() != FRAME {
        return Err(Refusal::Shape);
    }
    let kind = b[0] as u32;
    let flag = b[1] as u32;
    if !has_known_head(kind, flag) {
        return Err(Refusal::Shape);
    }
    if b[2] != 0 || b[3] != 0 {
        return Err(Refusal::Shape);
    }
    let tick = word(b, 4);
    if last < tick {
        return Err(Refusal::Late);
    }
    Ok(Frame { kind, flag, tick })
}

// Writes a frame over the bytes from i on: a joint, for writers that have judged kind, flag, tick and room. Kind and flag are the two
// high bytes of the first word, the two zero bytes its low half.
pub fn put_frame(out: &mut [u8], i: usize, frame: Frame)
    requires { (i + frame_size ≤ length out.old) × Narrow frame }
    ensures { out.new ≡ put_frame_bytes out.old i frame }
{
    put_word(out, i, frame.kind * 16777216 + frame.flag * 65536);
    put_word(out, i + 4, frame.tick);
}

pub fn write_frame(frame: Frame, last: u32, out: &mut [u8]) -> Result<usize, Refusal>
    ensures { written_by result out.new ≡ frame_written last frame out.old }
{
    if !has_known_head(frame.kind, frame.flag) {
        return Err(Refusal::Shape);
    }
    if last < frame.tick {
        return Err(Refusal::Late);
    }
    if out.len() < FRAME {
        return Err(Refusal::Room);
    }
    put_frame(out, 0, frame);
    Ok(FRAME)
}
