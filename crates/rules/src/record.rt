// Outgoing records: destination serial, 0 for all, then a frame. Joints: the caller has checked that there is room. They take a place and
// no slice, since what they promise is the whole output afterwards (`put_record_bytes`).
ghost use Rattle.std.specs.Prelude.{◌≡◌, ◌+◌, ◌≤◌, ◌<◌, length};
ghost use Rattle.forms.specs.Frame.{Narrow};
ghost use Rattle.rules.specs.Record.{record_size, broadcast, answer_to, put_record_bytes};

use fields::field::put_word;
use fields::kind::ECHO;
use forms::frame::{ANSWER, BROADCAST, Frame, put_frame};

// Bytes of a record.
pub const RECORD: usize = 12;

// Kind and flag have been judged too.
#[tactic(auto, unfolding(crate::specs::Record::put_record_bytes))]
fn put_record(out: &mut [u8], i: usize, dest: u32, frame: Frame)
    requires { (i + record_size ≤ length out.old) × Narrow frame }
    ensures { out.new ≡ put_record_bytes out.old i (record { dest = dest; frame = frame }) }
{
    put_word(out, i, dest);
    put_frame(out, i + 4, frame);
}

// A record to one serial alone: an echo with the flag.
pub fn put_answer(out: &mut [u8], i: usize, serial: u32, tick: u32)
    requires { i + record_size ≤ length out.old }
    ensures { out.new ≡ put_record_bytes out.old i (answer_to serial tick) }
{
    let frame = Frame {
        kind: ECHO,
        flag: ANSWER,
        tick,
    };
    put_record(out, i, serial, frame);
}

// A record to all, without the flag.
pub fn put_broadcast(out: &mut [u8], i: usize, kind: u32, tick: u32)
    requires { (i + record_size ≤ length out.old) × (kind < 256) }
    ensures { out.new ≡ put_record_bytes out.old i (broadcast kind tick) }
{
    let frame = Frame {
        kind,
        flag: BROADCAST,
        tick,
    };
    put_record(out, i, 0, frame);
}
