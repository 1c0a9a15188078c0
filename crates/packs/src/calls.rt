// The two calls of a sheet, with the answers that C is given.
ghost use Rattle.std.specs.Prelude.{◌≡◌, ℕ, List};
ghost use Rattle.rules.specs.Describe.{last_tick};
ghost use Rattle.node.specs.Layout.{layout};
ghost use Rattle.packs.specs.Answers.{pack_by, sheet_by};
ghost use Rattle.packs.specs.Question.{asked_by, pack_told};
ghost use Rattle.packs.specs.Writer.{written_by, sheet_written};

use crate::answer::{Licence, Refusal};
use crate::question::ask;
use crate::writer;

// The number of a call, and how the pack stands: 0 not licensed, 1 on the sheet but not in force, 2 in force; 0 with a refusal. Both are
// numbers, as the C interface has them: pebrassola_pack returns this struct.
#[repr(C)]
#[derive(Clone, Copy)]
pub struct PackAnswer {
    pub number: u32,
    pub licence: u32,
}

// The number of a call, and the bytes written; 0 with a refusal. A number, as the C interface has it: pebrassola_write_sheet returns this
// struct.
#[repr(C)]
#[derive(Clone, Copy)]
pub struct SheetAnswer {
    pub number: u32,
    pub written: u32,
}

impl From<Result<Licence, Refusal>> for PackAnswer {
    ghost from_gives = { λ asked a. pack_by a ≡ asked_by asked };

    fn from(asked: Result<Licence, Refusal>) -> PackAnswer {
        match asked {
            Ok(how) => PackAnswer {
                number: 0,
                licence: how.into(),
            },
            Err(why) => PackAnswer {
                number: why.into(),
                licence: 0,
            },
        }
    }
}

impl From<Result<u32, Refusal>> for SheetAnswer {
    ghost from_gives = { λ wrote a. (out : List ℕ) → sheet_by a out ≡ written_by wrote out };

    fn from(wrote: Result<u32, Refusal>) -> SheetAnswer {
        match wrote {
            Ok(written) => SheetAnswer { number: 0, written },
            Err(why) => SheetAnswer {
                number: why.into(),
                written: 0,
            },
        }
    }
}

// Whether a pack is in force at the clock of a node.
pub fn pack(sheet: &[u8], pack: u32, image: &[u8]) -> PackAnswer
    ensures { pack_by result ≡ pack_told layout last_tick sheet.now pack image.now }
{
    ask(sheet, pack, image).into()
}

// Writes a sheet of entries that come in any order.
pub fn write_sheet(entries: &[u8], out: &mut [u8]) -> SheetAnswer
    ensures { sheet_by result out.new ≡ sheet_written entries.now out.old }
{
    writer::write_sheet(entries, out).into()
}
