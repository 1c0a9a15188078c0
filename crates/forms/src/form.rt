// The reader and the writer of the roster form.
ghost use Rattle.std.specs.Prelude.{◌≡◌, ◌+◌, ◌*◌, ◌≤◌, length};
ghost use Rattle.fields.specs.Field.{put_words};
ghost use Rattle.forms.specs.Form.{told_by, form_told, serial_on, written_by, form_written};
ghost use Rattle.forms.specs.Number.{verdict_of};
ghost use Rattle.forms.specs.Roster.{roster_number};

use crate::answer::Refusal;
use crate::column::Column;
use crate::roster::{MOST_LINES, judge};
use fields::field::{half, put_half, put_word, word};

// Where the serials begin. No form is shorter.
pub const SERIALS: usize = 8;

// The same, as the field of a form that states it.
const OFFSET: u32 = SERIALS as u32;

// A form that is taken: n, f and the own serial.
#[derive(Clone, Copy)]
pub struct Form {
    pub lines: u32,
    pub faults: u32,
    pub own: u32,
}

pub fn read_form(b: &[u8]) -> Result<Form, Refusal>
    ensures { told_by result ≡ form_told b.now }
{
    if b.len() < SERIALS {
        return Err(Refusal::Layout);
    }
    if half(b, 2) != OFFSET {
        return Err(Refusal::Layout);
    }
    let n = b[0] as usize;
    if b.len() != SERIALS + 4 * n {
        return Err(Refusal::Layout);
    }
    let f = b[1] as u32;
    let own = word(b, 4);
    judge(f, own, &Column::new(b, SERIALS, 4, n))?;
    Ok(Form {
        lines: n as u32,
        faults: f,
        own,
    })
}

// The serial on a line, counted from 0, of a form that is taken; else 0.
pub fn read_serial(b: &[u8], line: usize) -> u32
    ensures { result ≡ serial_on b.now line }
{
    match read_form(b) {
        Err(_) => 0,
        Ok(form) => {
            if line < form.lines as usize {
                word(b, SERIALS + 4 * line)
            } else {
                0
            }
        }
    }
}

// Writes the serials one after the other from i on.
fn put_serials(out: &mut [u8], i: usize, serials: &[u32])
    requires { i + 4 * length serials.now ≤ length out.old }
    ensures { out.new ≡ put_words 4 out.old i serials.now }
{
    for (k, serial) in serials.iter().enumerate() {
        put_word(out, i + 4 * k, *serial);
    }
}

// The first of 2, 21, 3, 4 and 5 that applies to a list of serials, on a copy in the form's own layout.
fn judge_list(f: u32, own: u32, serials: &[u32]) -> Result<(), Refusal>
    ensures { verdict_of result ≡ roster_number f own serials.now }
{
    let n = serials.len();
    if MOST_LINES < n {
        return Err(Refusal::Limits);
    }
    let mut lines = [0u8; MOST_LINES * 4];
    put_serials(&mut lines, 0, serials);
    judge(f, own, &Column::new(&lines, 0, 4, n))
}

pub fn write_form(f: u32, own: u32, serials: &[u32], out: &mut [u8]) -> Result<usize, Refusal>
    ensures { written_by result out.new ≡ form_written f own serials.now out.old }
{
    judge_list(f, own, serials)?;
    let n = serials.len();
    let size = SERIALS + 4 * n;
    if out.len() < size {
        return Err(Refusal::Room);
    }
    out[0] = n as u8;
    out[1] = f as u8;
    put_half(out, 2, OFFSET);
    put_word(out, 4, own);
    put_serials(out, SERIALS, serials);
    Ok(size)
}
