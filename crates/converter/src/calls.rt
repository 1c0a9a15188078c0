// The converter's call on byte buffers. Nothing has to be checked beforehand: every old image and every buffer is handled. A refusal gives
// its number and changes no byte.
ghost use Rattle.std.specs.Prelude.{◌≡◌, ◌≤◌, length, get_or};
ghost use Rattle.rules.specs.Describe.{last_tick};
ghost use Rattle.node.specs.Number.{verdict_of};
ghost use Rattle.node.specs.Image.{sound_state, state_of, sound_image};
ghost use Rattle.node.specs.Layout.{layout, old_layout, image_size};
ghost use Rattle.converter.specs.Answers.{converted_by, conversion_told};
ghost use Rattle.converter.specs.Convert.{conversion_number, converted};

use crate::rows::{OLD_ROW, OldRows};
use evidence::rows::ROW;
use forms::roster;
use forms::roster::MOST_LINES;
use node::answer::Refusal;
use node::image::{has_header, has_sound_clock, put_node, read_node};
use node::layout::{HEADER, Layout};

// Bytes of the longest old image.
pub const MOST_OLD_IMAGE: usize = HEADER + MOST_LINES * OLD_ROW;

// The number of a conversion, and how many bytes of the new image were written. A C struct, since crate `pebrassola` exports convert to C:
// so a number stands in it and no Result.
#[repr(C)]
#[derive(Drop)]
pub struct Conversion {
    pub number: u32,
    pub written: u32,
}

impl From<Result<u32, Refusal>> for Conversion {
    ghost from_gives = { λ told c. c ≡ conversion_told told };

    fn from(told: Result<u32, Refusal>) -> Conversion {
        match told {
            Ok(written) => Conversion { number: 0, written },
            Err(why) => Conversion {
                number: u32::from(why),
                written: 0,
            },
        }
    }
}

// Whether an old node and its rows are as a sound image holds them, judged where they lie by the rules of today.
fn is_sound_old_state(old: &[u8]) -> bool
    requires { image_size old_layout (get_or old.now 0 0) ≤ length old.now }
    ensures { result ≡ sound_state old_layout.window last_tick (state_of old_layout old.now) }
{
    let node = read_node(old);
    let rows = OldRows::new(old, node.lines as usize);
    roster::judge(node.faults, node.own, &rows.serials()).is_ok()
        && has_sound_clock(node)
        && rows.are_proper()
        && rows.is_at_rest(node)
}

// Whether a buffer holds an image that is sound in the old layout: all that number 8 asks.
fn is_sound_old(old: &[u8]) -> bool
    ensures { result ≡ sound_image old_layout last_tick old.now }
{
    has_header(old, Layout::old()) && is_sound_old_state(old)
}

// What a conversion is refused for: the old image, then the room.
fn judge(old: &[u8], room: usize) -> Result<(), Refusal>
    ensures { verdict_of result ≡ conversion_number old_layout layout last_tick old.now room }
{
    if !is_sound_old(old) {
        return Err(Refusal::Unsound);
    }
    let n = old[0] as usize;
    if room < HEADER + n * ROW {
        return Err(Refusal::Short);
    }
    Ok(())
}

// Writes the node of an old image in the layout in service, over the front of a buffer.
pub fn convert(old: &[u8], image: &mut [u8]) -> Conversion
    ensures { converted_by result image.new
        ≡ converted old_layout layout last_tick old.now image.old }
{
    Conversion::from(try_convert(old, image))
}

// Gives the bytes written.
fn try_convert(old: &[u8], image: &mut [u8]) -> Result<u32, Refusal>
    ensures { converted_by (conversion_told result) image.new
        ≡ converted old_layout layout last_tick old.now image.old }
{
    judge(old, image.len())?;
    let n = old[0] as usize;
    put_node(image, read_node(old));
    OldRows::new(old, n).widen(image);
    Ok((HEADER + n * ROW) as u32)
}
