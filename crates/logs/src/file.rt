// The reader and the writer of a log.
ghost use Rattle.std.specs.Prelude.{◌≡◌};
ghost use Rattle.logs.specs.Log.{told_by, log_told, written_by, log_written};

use crate::refusal::Refusal;
use fields::field::{put_word, word};
use forms::frame::FRAME;
use text::put::put_bytes;

// Where the form stands: behind the count and the two offsets.
pub(crate) const FORM_PLACE: usize = 12;

// The same as the log has it.
const FORM_OFFSET: u32 = FORM_PLACE as u32;

// Where the frame stands in an event: behind the port serial.
pub(crate) const FRAME_PLACE: usize = 4;

// Bytes of an event: 12.
pub(crate) const EVENT_SIZE: usize = FRAME_PLACE + FRAME;

pub(crate) const MOST_EVENTS: u32 = 4096;

const MOST_EVENT_BYTES: usize = MOST_EVENTS as usize * EVENT_SIZE;

// A form has 8 bytes at least,
const LEAST_FORM: usize = 8;

// and 1,000 at most,
const MOST_FORM: usize = 1000;

// so the events begin at 20 at least,
const LEAST_OFFSET: u32 = (FORM_PLACE + LEAST_FORM) as u32;

// and at 1,012 at most.
const MOST_OFFSET: u32 = (FORM_PLACE + MOST_FORM) as u32;

// Bytes of the longest log: 50,164.
pub const LONGEST: usize = FORM_PLACE + MOST_FORM + MOST_EVENT_BYTES;

// A log that is taken: how many events, and where they begin. The form stands from 12 to there.
#[derive(Drop)]
pub struct Log {
    pub count: u32,
    pub events: u32,
}

#[tactic(auto, using(crate::proofs::Logs::tells))]
pub fn read_log(b: &[u8]) -> Result<Log, Refusal>
    ensures { told_by result ≡ log_told b.now }
{
    if b.len() < FORM_PLACE {
        return Err(Refusal::Layout);
    }
    let count = word(b, 0);
    let events = word(b, 8);
    if word(b, 4) != FORM_OFFSET {
        return Err(Refusal::Layout);
    }
    if events < LEAST_OFFSET {
        return Err(Refusal::Layout);
    }
    if MOST_OFFSET < events {
        return Err(Refusal::Layout);
    }
    if MOST_EVENTS < count {
        return Err(Refusal::Layout);
    }
    if b.len() != events as usize + EVENT_SIZE * (count as usize) {
        return Err(Refusal::Layout);
    }
    Ok(Log { count, events })
}

#[tactic(auto, using(crate::proofs::Logs::writes), unfolding(crate::specs::Log::put_log))]
pub fn write_log(form: &[u8], events: &[u8], out: &mut [u8]) -> Result<usize, Refusal>
    ensures { written_by result out.new ≡ log_written form.now events.now out.old }
{
    if form.len() < LEAST_FORM {
        return Err(Refusal::Layout);
    }
    if MOST_FORM < form.len() {
        return Err(Refusal::Layout);
    }
    if events.len() % EVENT_SIZE != 0 {
        return Err(Refusal::Layout);
    }
    if MOST_EVENT_BYTES < events.len() {
        return Err(Refusal::Layout);
    }
    let start = FORM_PLACE + form.len();
    let size = start + events.len();
    if out.len() < size {
        return Err(Refusal::Room);
    }
    put_word(out, 0, (events.len() / EVENT_SIZE) as u32);
    put_word(out, 4, FORM_OFFSET);
    put_word(out, 8, start as u32);
    put_bytes(out, FORM_PLACE, form);
    put_bytes(out, start, events);
    Ok(size)
}
