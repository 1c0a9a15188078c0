// What truck firmware in C links: the exported functions and nothing else. Each is one call of the crate that owns it, under the same
// contract. The C caller's only duty is that the buffers are real memory of the stated length and do not overlap.
// include/pebrassola.h declares them.
#![tactic(auto)]

ghost use Rattle.std.specs.Prelude.{◌≡◌};
ghost use Rattle.rules.specs.Describe.{last_tick};
ghost use Rattle.node.specs.Answers.{outcome_by, reading_by};
ghost use Rattle.node.specs.Calls.{booted, deliver_outcome, reading};
ghost use Rattle.node.specs.Layout.{layout, old_layout};
ghost use Rattle.converter.specs.Answers.{converted_by};
ghost use Rattle.converter.specs.Convert.{converted};
ghost use Rattle.correction.specs.Answers.{corrected_by};
ghost use Rattle.correction.specs.Correct.{corrected};
ghost use Rattle.packs.specs.Answers.{pack_by, sheet_by};
ghost use Rattle.packs.specs.Question.{pack_told};
ghost use Rattle.packs.specs.Writer.{sheet_written};

use converter::calls::Conversion;
use correction::calls::Correction;
use node::calls;
use node::calls::{Answer, Reading};
use packs::calls::{PackAnswer, SheetAnswer};

// Makes a fresh node of a form.
#[unsafe(no_mangle)]
pub extern "C" fn pebrassola_boot(form: &[u8], image: &mut [u8], out: &mut [u8]) -> Answer
    ensures { outcome_by result image.new out.new
        ≡ booted layout form.now image.old out.old }
{
    calls::boot(form, image, out)
}

// Takes one frame that the wiring delivered from a port.
#[unsafe(no_mangle)]
pub extern "C" fn pebrassola_deliver(
    image: &mut [u8],
    port: u32,
    frame: &[u8],
    out: &mut [u8],
) -> Answer
    ensures { outcome_by result image.new out.new
        ≡ deliver_outcome layout last_tick image.old port frame.now out.old }
{
    calls::deliver(image, port, frame, out)
}

// The clock of an active node.
#[unsafe(no_mangle)]
pub extern "C" fn pebrassola_read(image: &[u8]) -> Reading
    ensures { reading_by result ≡ reading layout last_tick image.now }
{
    calls::read(image)
}

// Writes an image from before the window grew in the layout in service.
#[unsafe(no_mangle)]
pub extern "C" fn pebrassola_convert(old: &[u8], image: &mut [u8]) -> Conversion
    ensures { converted_by result image.new
        ≡ converted old_layout layout last_tick old.now image.old }
{
    converter::calls::convert(old, image)
}

// Whether a pack is in force at the clock of a node.
#[unsafe(no_mangle)]
pub extern "C" fn pebrassola_pack(sheet: &[u8], pack: u32, image: &[u8]) -> PackAnswer
    ensures { pack_by result ≡ pack_told layout last_tick sheet.now pack image.now }
{
    packs::calls::pack(sheet, pack, image)
}

// Writes a sheet of entries that come in any order.
#[unsafe(no_mangle)]
pub extern "C" fn pebrassola_write_sheet(entries: &[u8], out: &mut [u8]) -> SheetAnswer
    ensures { sheet_by result out.new ≡ sheet_written entries.now out.old }
{
    packs::calls::write_sheet(entries, out)
}

// By how much a counter of microseconds is to be set, from the readings of n counters of which up to f may be bad.
#[unsafe(no_mangle)]
pub extern "C" fn pebrassola_correct(n: u32, f: u32, readings: &[u32], expected: u32) -> Correction
    ensures { corrected_by result ≡ corrected n f readings.now expected }
{
    correction::calls::correct(n, f, readings, expected)
}
